// A fixed stream of calls with good and bad numbers, by the recurrence x' = 48271 x mod 2147483647. Call i
// (from 0) draws twelve numbers, whatever its kind; they, the phase (i div 256) and a guess at which
// transactions are open give all about the call.
#![tactic(auto)]

ghost use Rattle.std.specs.Prelude.{◌≤◌, ◌<◌};

use limits::{BUFFER_BYTES, DESCRIPTORS, FILE_BYTES, LAST_MINUTE, TRANSACTIONS};
use requests::Request;
use test_scripts::Plan;

// The modes. Crowded and Scattered differ from Mixed by the tables alone.
#[derive(Clone, Copy, PartialEq, Eq)]
enum Mode {
    Mixed,
    Crowded,
    ManyRecords,
    LongWrites,
    NearEnd,
    LongReads,
    Scattered,
    ShortFiles,
    Quiet,
    Ready,
}

// The kinds of calls.
#[derive(Clone, Copy, PartialEq, Eq)]
enum Kind {
    Fresh,
    Begin,
    Seek,
    Write,
    GetFilePointer,
    Read,
    Places,
    Commit,
    Abort,
    SetWindow,
    UndoCommit,
    Dispatch,
    BestOrder,
}

// The kinds in the order of their weights.
const KINDS: [Kind; 13] = [
    Kind::Fresh,
    Kind::Begin,
    Kind::Seek,
    Kind::Write,
    Kind::GetFilePointer,
    Kind::Read,
    Kind::Places,
    Kind::Commit,
    Kind::Abort,
    Kind::SetWindow,
    Kind::UndoCommit,
    Kind::Dispatch,
    Kind::BestOrder,
];

impl Mode {
    // The modes take turns, a phase each.
    fn of_phase(phase: usize) -> Mode {
        match phase % 10 {
            0 => Mode::Mixed,
            1 => Mode::Crowded,
            2 => Mode::ManyRecords,
            3 => Mode::LongWrites,
            4 => Mode::NearEnd,
            5 => Mode::LongReads,
            6 => Mode::Scattered,
            7 => Mode::ShortFiles,
            8 => Mode::Quiet,
            _ => Mode::Ready,
        }
    }

    // How many of 1,000 calls are of each kind.
    fn weights(self) -> [usize; 13] {
        match self {
            Mode::Mixed => [4, 20, 200, 250, 80, 207, 40, 102, 43, 40, 5, 5, 4],
            Mode::Crowded => [4, 20, 155, 215, 120, 186, 40, 162, 44, 40, 5, 5, 4],
            Mode::ManyRecords => [4, 10, 60, 787, 10, 56, 40, 12, 8, 10, 1, 1, 1],
            Mode::LongWrites => [4, 20, 208, 419, 30, 91, 40, 92, 53, 40, 1, 1, 1],
            Mode::NearEnd => [4, 20, 200, 260, 80, 141, 40, 151, 50, 40, 5, 5, 4],
            Mode::LongReads => [4, 20, 190, 240, 60, 251, 40, 102, 39, 40, 5, 5, 4],
            Mode::Scattered => [4, 20, 333, 335, 20, 100, 146, 16, 10, 10, 1, 1, 4],
            Mode::ShortFiles => [24, 20, 50, 310, 10, 316, 16, 180, 30, 30, 5, 5, 4],
            Mode::Quiet => [4, 10, 210, 392, 20, 70, 10, 110, 20, 20, 65, 65, 4],
            Mode::Ready => [4, 10, 200, 240, 50, 160, 6, 20, 40, 20, 5, 5, 240],
        }
    }

    // How many transaction numbers a mode mostly uses.
    fn transactions_used(self) -> usize
        ensures { (0 < result) × (result ≤ 8) }
    {
        match self {
            Mode::Quiet => 1,
            Mode::ManyRecords | Mode::Scattered => 2,
            Mode::LongWrites => 3,
            Mode::Crowded | Mode::ShortFiles => 4,
            Mode::NearEnd => 6,
            Mode::Mixed | Mode::LongReads | Mode::Ready => 8,
        }
    }

    // Through how many files of the usual arrangement a mode goes, each by two descriptors.
    fn files_used(self) -> usize
        ensures { (0 < result) × (result ≤ 8) }
    {
        match self {
            Mode::Crowded | Mode::Scattered | Mode::ShortFiles | Mode::Quiet | Mode::Ready => 2,
            Mode::NearEnd => 3,
            Mode::LongReads => 4,
            Mode::Mixed | Mode::ManyRecords | Mode::LongWrites => 8,
        }
    }

    // The files stay short.
    fn is_short(self) -> bool {
        matches!(self, Mode::ShortFiles | Mode::Quiet | Mode::Ready)
    }

    // Each phase starts with a Fresh.
    fn starts_fresh(self) -> bool {
        matches!(self, Mode::Quiet | Mode::Ready)
    }
}

// A list of at most N numbers.
#[derive(Clone, Copy)]
pub struct NumberList<const N: usize> {
    numbers: [u8; N],
    len: usize,
    ghost in_room: { len ≤ N },
}

impl<const N: usize> NumberList<N> {
    fn new() -> NumberList<N> {
        NumberList {
            numbers: [0; N],
            len: 0,
        }
    }

    // One number more, where there is room.
    fn push(&mut self, n: u8) {
        if self.len < N {
            self.numbers[self.len] = n;
            self.len += 1;
        }
    }

    pub fn as_slice(&self) -> &[u8] {
        &self.numbers[..self.len]
    }
}

// The store buffers that are lent to a call.
#[derive(Clone, Copy, PartialEq, Eq)]
pub enum StoreBuffer {
    Files,
    Logs,
    Marks,
    Undo,
}

// A store buffer of which only the first `length` bytes are lent.
#[derive(Clone, Copy)]
pub struct Short {
    pub buffer: StoreBuffer,
    pub length: usize,
}

// A standing whose number is out of range.
#[derive(Clone, Copy)]
pub enum FarStanding {
    Placed,
    Deferred,
    MovedAdvance,
    MovedOffset,
    Known,
}

// A standing under which a record without a place is out of range.
#[derive(Clone, Copy)]
pub enum Waiting {
    Placed,
    Deferred,
}

// A counter out of range: of records, or of bytes, which differs from the sum of their lengths.
#[derive(Clone, Copy)]
pub enum Counter {
    Records,
    Bytes,
}

// What is wrong with the records of a part of the journal: the first one's descriptor, its end, its length,
// which changes the sum, or that two have more bytes than a log.
#[derive(Clone, Copy)]
pub enum RecordFault {
    Descriptor,
    End,
    Length,
    TooManyBytes,
}

// What is out of range in a forged state: a number that is committed, of a window, of a transaction, or of
// what is held of the last grant.
#[derive(Clone, Copy)]
pub enum Fault {
    FileNumber,
    Offset,
    Length,
    WindowStart,
    WindowEnd,
    Standing(FarStanding),
    Counter(Counter),
    Record(RecordFault),
    Unplaced(Waiting),
    FoundOffset,
    FoundLength,
    GrantCounter(Counter),
    GrantRecord(RecordFault),
    GrantUnplaced,
}

// The faults, in the order of the forgeries 1 to 27.
const FAULTS: [Fault; 27] = [
    Fault::FileNumber,
    Fault::Offset,
    Fault::Standing(FarStanding::Placed),
    Fault::Standing(FarStanding::Deferred),
    Fault::Standing(FarStanding::MovedAdvance),
    Fault::Standing(FarStanding::MovedOffset),
    Fault::Standing(FarStanding::Known),
    Fault::Counter(Counter::Records),
    Fault::Counter(Counter::Bytes),
    Fault::Record(RecordFault::Descriptor),
    Fault::Record(RecordFault::End),
    Fault::Record(RecordFault::Length),
    Fault::Unplaced(Waiting::Placed),
    Fault::Unplaced(Waiting::Deferred),
    Fault::Record(RecordFault::TooManyBytes),
    Fault::Length,
    Fault::WindowStart,
    Fault::WindowEnd,
    Fault::FoundOffset,
    Fault::FoundLength,
    Fault::GrantCounter(Counter::Records),
    Fault::GrantCounter(Counter::Bytes),
    Fault::GrantRecord(RecordFault::Descriptor),
    Fault::GrantRecord(RecordFault::End),
    Fault::GrantRecord(RecordFault::Length),
    Fault::GrantRecord(RecordFault::TooManyBytes),
    Fault::GrantUnplaced,
];

// A fault, and the numbers that say where it is and how far out of range.
#[derive(Clone, Copy)]
pub struct Forgery {
    pub fault: Fault,
    pub transaction: usize,
    pub index: usize,
    pub excess: usize,
    ghost transaction_in_range: { transaction < 8 },
    ghost index_in_range: { index < 16 },
}

// What is wrong with what is lent to a call: a buffer that is short, a state that is not valid.
#[derive(Clone, Copy)]
pub struct Damage {
    pub short: Option<Short>,
    pub forgery: Option<Forgery>,
}

// What is asked about an order to commit in.
#[derive(Clone, Copy)]
pub struct Ready {
    pub list: NumberList<10>,
    pub minute: usize,
    pub budget: usize,
}

// A Fresh with its file numbers, a dispatcher, a best order, or another call.
#[derive(Clone, Copy)]
pub enum Made {
    Fresh(NumberList<17>),
    Dispatch(Plan),
    BestOrder(Ready),
    Asks(Request),
}

// A call, and what is lent with it.
#[derive(Clone, Copy)]
pub struct Generated {
    pub made: Made,
    // How many bytes a Write or a dispatcher's data buffer has, the first of them, and what each has more
    // than the one before.
    pub size: usize,
    pub first: u8,
    pub step: u8,
    // The length of the buffer lent for the answer, 0 for a call that is no Read, Places or dispatcher.
    pub buffer: usize,
    pub damage: Damage,
}

// A guess at each transaction: that it is open, and that it has made a Seek since its Begin.
#[derive(Clone, Copy)]
pub struct Guess {
    open: [bool; TRANSACTIONS],
    sought: [bool; TRANSACTIONS],
}

// Transaction t's flag is changed, where there is a transaction t.
fn mark(flags: &mut [bool; TRANSACTIONS], t: usize, value: bool) {
    if t < TRANSACTIONS {
        flags[t] = value;
    }
}

impl Guess {
    // No transaction is open.
    pub fn none() -> Guess {
        Guess {
            open: [false; TRANSACTIONS],
            sought: [false; TRANSACTIONS],
        }
    }

    // The guess after the call.
    pub fn after(mut self, g: Generated) -> Guess {
        if g.damage.short.is_some() || g.damage.forgery.is_some() {
            return self;
        }
        match g.made {
            Made::Fresh(list) => {
                if is_good(list) {
                    self.open = [false; TRANSACTIONS];
                }
            }
            Made::Asks(request) => self.ask(request),
            Made::Dispatch(_) | Made::BestOrder(_) => {}
        }
        self
    }

    // What a request changes.
    fn ask(&mut self, request: Request) {
        match request {
            Request::Begin(t) => {
                mark(&mut self.open, t, true);
                mark(&mut self.sought, t, false);
            }
            Request::Seek(t, _, _) => mark(&mut self.sought, t, true),
            Request::Commit(t, minute) => {
                if minute <= usize::from(LAST_MINUTE) {
                    mark(&mut self.open, t, false);
                }
            }
            Request::Abort(t) => mark(&mut self.open, t, false),
            _ => {}
        }
    }

    // The lowest number of a transaction that is guessed open.
    fn first_open(&self) -> Option<usize> {
        self.open.iter().position(|open| *open)
    }
}

// A Fresh with the list is answered plainly: it has sixteen numbers, each below 8.
fn is_good(list: NumberList<17>) -> bool {
    let numbers = list.as_slice();
    numbers.len() == DESCRIPTORS && numbers.iter().all(|n| *n < 8)
}

// Where the recurrence has come to.
#[derive(Clone, Copy)]
pub struct NumberSource {
    last: usize,
    ghost in_range: { last < 2147483647 },
}

impl NumberSource {
    // Before the first call.
    pub fn new() -> NumberSource {
        NumberSource { last: 1 }
    }

    fn following(&mut self) -> usize {
        self.last = 48271 * self.last % 2147483647;
        self.last
    }

    // The twelve numbers that follow.
    pub fn draw(&mut self) -> [usize; 12] {
        let mut numbers = [0usize; 12];
        for number in numbers.iter_mut() {
            *number = self.following();
        }
        numbers
    }
}

// Mostly one of a few that follow the phase, sometimes, not in the quiet mode, any of the eight, now and then
// 8 or 9.
fn transaction(phase: usize, r: usize) -> usize {
    let class = r % 40;
    let value = r / 40;
    let mode = Mode::of_phase(phase);
    if class == 0 {
        return 8 + value % 2;
    }
    if class < 4 && mode != Mode::Quiet {
        return value % 8;
    }
    let used = mode.transactions_used();
    (phase % 8 + phase / 8 % 8 + value % used) % 8
}

// One of the mode's descriptors, in the ready mode mostly that of the transaction, now and then 16 or 17.
fn descriptor(mode: Mode, t: usize, r: usize) -> usize {
    let class = r % 40;
    let value = r / 40;
    if class == 0 {
        return 16 + value % 2;
    }
    if class > 3 && mode == Mode::Ready {
        return t % 2 + 8 * (t / 2 % 2);
    }
    let used = mode.files_used();
    value % used + 8 * (value / 64 % 2)
}

// One of the mode's files, now and then 8 or 9.
fn file(mode: Mode, r: usize) -> usize {
    let value = r / 40;
    if r % 40 == 0 {
        return 8 + value % 2;
    }
    let used = mode.files_used();
    value % used
}

// The kind, by the weights of the mode.
fn weighted_kind(mode: Mode, r: usize) -> Kind {
    let weights = mode.weights();
    let mut rest = r % 1000;
    for (kind, weight) in KINDS.iter().zip(weights.iter()) {
        if rest < *weight {
            return *kind;
        }
        rest -= *weight;
    }
    Kind::BestOrder
}

// In the ready mode the first Write of a transaction is made a Seek.
fn sought_first(mode: Mode, kind: Kind, t: usize, guess: Guess) -> Kind {
    let is_first = t < TRANSACTIONS && !guess.sought[t];
    if mode == Mode::Ready && kind == Kind::Write && is_first {
        return Kind::Seek;
    }
    kind
}

// A call on a transaction that is guessed closed: a Begin or, in the quiet mode while none is guessed open,
// as often an undo or a dispatcher.
fn opening(mode: Mode, first: Option<usize>, r: usize) -> Kind {
    if mode != Mode::Quiet || first.is_some() {
        return Kind::Begin;
    }
    match r % 3 {
        0 => Kind::UndoCommit,
        1 => Kind::Dispatch,
        _ => Kind::Begin,
    }
}

// An undo or a dispatcher while a transaction is guessed open: that one's Commit or Abort.
fn ending(r: usize) -> Kind {
    match r % 4 {
        0 => Kind::Abort,
        _ => Kind::Commit,
    }
}

// Transaction t exists, and is guessed closed.
fn is_closed(guess: Guess, t: usize) -> bool {
    t < TRANSACTIONS && !guess.open[t]
}

// The kind and the transaction: seven times out of eight a call is made to fit the guess.
fn fitted(mode: Mode, kind: Kind, t: usize, guess: Guess, r: [usize; 12]) -> (Kind, usize) {
    if r[11] % 8 == 0 {
        return (kind, t);
    }
    let first = guess.first_open();
    match kind {
        Kind::UndoCommit | Kind::Dispatch => match first {
            Some(open) => (ending(r[9]), open),
            None => (kind, t),
        },
        Kind::Fresh | Kind::Begin | Kind::SetWindow | Kind::BestOrder => (kind, t),
        _ if is_closed(guess, t) => (opening(mode, first, r[10]), t),
        _ => (kind, t),
    }
}

// Where a Seek goes in a short file: mostly in steps of 4, so that ends meet.
fn near_start(class: usize, value: usize) -> usize {
    if class < 12 {
        return 4 * (value % 4);
    }
    value % 16
}

fn seek_to(mode: Mode, class: usize, value: usize) -> usize {
    if mode == Mode::NearEnd && class < 10 {
        return 4084 + value % 14;
    }
    if mode.is_short() {
        return near_start(class, value);
    }
    match class {
        0..=5 => value % 4,
        6..=10 => value % 64,
        11 | 12 => value % FILE_BYTES,
        13 | 14 => 4088 + value % 14,
        _ => value % 65536,
    }
}

// The usual lengths of a Write.
fn usual_length(class: usize, value: usize) -> usize {
    match class {
        0..=2 => 0,
        3..=12 => value % 9,
        13 | 14 => value % 200,
        _ => value % 4098,
    }
}

// How many bytes a Write to a short file has.
fn write_to_short_file(class: usize, value: usize) -> usize {
    if class < 12 {
        return 4;
    }
    value % 9
}

fn write_length(mode: Mode, class: usize, value: usize) -> usize {
    match (mode, class) {
        (Mode::ManyRecords, 0..=9) => 0,
        (Mode::ManyRecords, 10..=14) => value % 3,
        (Mode::LongWrites, 0..=11) => 200 + value % 1300,
        (Mode::LongWrites, 12 | 13) => 3000 + value % 1098,
        _ if mode.is_short() => write_to_short_file(class, value),
        _ => usual_length(class, value),
    }
}

// The length of the reader's buffer.
fn reader_length(mode: Mode, class: usize) -> usize
    ensures { result ≤ 5000 }
{
    match (class, mode) {
        (12, _) => 64,
        (13, _) => 300,
        (14, Mode::Mixed | Mode::LongReads) => FILE_BYTES,
        (15, Mode::LongReads) => 5000,
        (15, _) => 0,
        _ => 16,
    }
}

fn read_count(mode: Mode, class: usize, value: usize) -> usize {
    match reader_length(mode, class) {
        FILE_BYTES => 4080 + value % 20,
        0 => value % 2,
        _ if matches!(class, 10 | 11) => 12 + value % 9,
        room => value % (room + 1),
    }
}

// A minute: mostly one of six, around midnight and around noon, sometimes any of the day, now and then none.
fn minute(class: usize, value: usize) -> usize {
    match class {
        0 if value % 2 == 0 => 1440,
        0 => 1440 + value / 2 % 64096,
        1..=11 => (720 * (value % 2) + 1439 + value / 2 % 3) % 1440,
        _ => value % 1440,
    }
}

// The end of a window: as its start for every other one.
fn window_end(start: usize, r: [usize; 12]) -> usize {
    if r[10] % 2 == 0 {
        return start;
    }
    minute(r[5] % 16, r[6])
}

fn argument(kind: Kind, mode: Mode, class: usize, value: usize) -> usize {
    match kind {
        Kind::Seek => seek_to(mode, class, value),
        Kind::Write => write_length(mode, class, value),
        Kind::Commit | Kind::SetWindow => minute(class, value),
        _ => read_count(mode, class, value),
    }
}

// The length of the buffer for a list: often room for a few pairs, below five; otherwise 64 bytes, or 300,
// which every list fits.
fn list_room(class: usize, value: usize) -> usize {
    match class {
        0..=9 => value % 20,
        10..=12 => 64,
        _ => 300,
    }
}

fn buffer(kind: Kind, mode: Mode, r: [usize; 12]) -> usize {
    match kind {
        Kind::Read => reader_length(mode, r[3] % 16),
        Kind::Places => list_room(r[3] % 16, r[4]),
        Kind::Dispatch => reader_length(mode, r[2] % 16),
        _ => 0,
    }
}

fn octet(n: usize) -> u8 {
    (n % 256) as u8
}

// A Write's first byte or step: 0 for one Write out of four.
fn written(r: usize, zeros: usize) -> u8 {
    if zeros / 256 % 4 == 0 {
        return 0;
    }
    octet(r)
}

// Which store buffer is short.
fn store_buffer(r: usize) -> StoreBuffer {
    match r % 4 {
        0 => StoreBuffer::Files,
        1 => StoreBuffer::Logs,
        2 => StoreBuffer::Marks,
        _ => StoreBuffer::Undo,
    }
}

// How many bytes a store buffer has.
fn whole(buffer: StoreBuffer) -> usize
    ensures { 0 < result }
{
    match buffer {
        StoreBuffer::Undo => FILE_BYTES,
        StoreBuffer::Files | StoreBuffer::Logs | StoreBuffer::Marks => BUFFER_BYTES,
    }
}

fn short_length(buffer: StoreBuffer, r: usize) -> usize {
    let n = whole(buffer);
    if r % 2 == 0 {
        return n - 1;
    }
    r / 2 % n
}

// The short buffer of two calls of 128 and of one that is forged as well.
fn short_buffer(class: usize, r: [usize; 12]) -> Option<Short> {
    if class > 2 {
        return None;
    }
    let buffer = store_buffer(r[8]);
    Some(Short {
        buffer,
        length: short_length(buffer, r[9]),
    })
}

// The forgery of three calls of 128. Fresh reads no state.
fn forged(kind: Kind, class: usize, r: [usize; 12]) -> Option<Forgery> {
    if kind == Kind::Fresh || !matches!(class, 2..=4) {
        return None;
    }
    Some(Forgery {
        fault: FAULTS[r[8] % 27],
        transaction: r[9] % 8,
        index: r[9] / 8 % 16,
        excess: r[10],
    })
}

fn damaged(kind: Kind, r: [usize; 12]) -> Damage {
    let class = r[7] % 128;
    Damage {
        short: short_buffer(class, r),
        forgery: forged(kind, class, r),
    }
}

// Descriptor d belongs to file (factor d + shift) mod 8. A sum wraps at a multiple of 8.
fn files_by(factor: usize, shift: usize) -> [u8; 17] {
    let mut numbers = [0u8; 17];
    let mut file = shift;
    for number in numbers.iter_mut() {
        *number = octet(file % 8);
        file = file.wrapping_add(factor);
    }
    numbers
}

// Fresh's list; often one number is above 7. Factor 1 and shift 0 for three Freshs out of four.
fn file_numbers(r: [usize; 12]) -> NumberList<17> {
    let mut numbers = if r[10] % 4 == 0 {
        files_by(r[10] / 4 % 8, r[11] % 8)
    } else {
        files_by(1, 0)
    };
    if r[3] / 8 % 8 < 5 {
        numbers[r[8] % 16] = octet(8 + r[9] % 248);
    }
    NumberList {
        numbers,
        len: list_length(r[3], r[4]),
    }
}

fn list_length(class: usize, value: usize) -> usize
    ensures { result ≤ 17 }
{
    if class % 8 == 0 {
        return 15 + 2 * (value % 2);
    }
    16
}

// The call of a kind and a transaction in a mode that twelve numbers make.
fn call_of(kind: Kind, t: usize, mode: Mode, guess: Guess, r: [usize; 12]) -> Made {
    let d = descriptor(mode, t, r[2]);
    let f = file(mode, r[2]);
    let n = argument(kind, mode, r[3] % 16, r[4]);
    match kind {
        Kind::Fresh => Made::Fresh(file_numbers(r)),
        Kind::Begin => Made::Asks(Request::Begin(t)),
        Kind::Seek => Made::Asks(Request::Seek(t, d, n)),
        Kind::Write => Made::Asks(Request::Write(t, d)),
        Kind::GetFilePointer => Made::Asks(Request::GetFilePointer(t, d)),
        Kind::Read => Made::Asks(Request::Read(t, d, n)),
        Kind::Places => Made::Asks(Request::Places(t, f)),
        Kind::Commit => Made::Asks(Request::Commit(t, n)),
        Kind::Abort => Made::Asks(Request::Abort(t)),
        Kind::SetWindow => Made::Asks(Request::SetWindow(f, n, window_end(n, r))),
        Kind::UndoCommit => Made::Asks(Request::UndoCommit),
        Kind::Dispatch => Made::Dispatch(planned(r)),
        Kind::BestOrder => Made::BestOrder(asked_order(r, guess)),
    }
}

// How many scripts a dispatcher has: one to eight, sometimes none or too many.
fn script_count(class: usize, value: usize) -> usize {
    match class {
        0 => 9 + value % 8,
        1 => 0,
        _ => 1 + value % 8,
    }
}

// One of eight scripts for one dispatcher out of n. No other function divides by what it is given, so that n
// has no type of its own.
fn one_of(r: usize, n: usize) -> Option<usize>
    requires { 0 < n }
{
    if r % n == 0 {
        return Some(r / n % 8);
    }
    None
}

// The numbers of a dispatcher's scripts.
fn planned(r: [usize; 12]) -> Plan {
    Plan {
        count: script_count(r[3] % 16, r[4]),
        data: r[5] / 256 % 64,
        minute: minute(r[7] / 128 % 16, r[8]),
        long: one_of(r[8], 32),
        past: one_of(r[9], 16),
        base: r[4],
        stride: r[5],
    }
}

// Transactions for an order: those that are guessed open, or any, at most so many, from a start on by steps.
// A sum wraps at a multiple of 8.
fn members(guess: Guess, any: bool, most: usize, start: usize, step: usize) -> NumberList<8> {
    let mut list = NumberList::new();
    let mut t = start;
    for _ in 0..TRANSACTIONS {
        let member = t % 8;
        if (guess.open[member] || any) && list.len < most {
            list.push(octet(member));
        }
        t = t.wrapping_add(step);
    }
    list
}

// The list as it is asked about: now and then empty, with a repeat, or with a number above 7 behind it, once
// or twice.
fn listed(members: NumberList<8>, class: usize, above: u8) -> NumberList<10> {
    let mut list = NumberList::new();
    for member in members.as_slice() {
        list.push(*member);
    }
    let first = list.as_slice().first().copied().unwrap_or(above);
    match class {
        1 => list = NumberList::new(),
        2 => list.push(first),
        3 | 5 => list.push(above),
        4 => {
            list.push(above);
            list.push(above);
        }
        _ => {}
    }
    list
}

// Mostly up to 30 orders, often as many as there are of one to five transactions; now and then 0, or 40,320
// and more. A larger budget is given to short lists only.
fn budget(length: usize, class: usize, value: usize) -> usize {
    match class {
        0 => 0,
        1 => 40321 + value % 25000,
        2 if length < 5 => 40320,
        2 | 3 => 120,
        4 => 24,
        5 => 6,
        6 => 2,
        7 => 1,
        _ => 1 + value % 30,
    }
}

// What is asked about an order, by twelve numbers and the transactions that are guessed open.
fn asked_order(r: [usize; 12], guess: Guess) -> Ready {
    let class = r[3] % 32;
    let any = matches!(class, 0 | 3 | 5);
    let most = if class == 5 { 8 } else { 1 + r[4] % 8 };
    let step = 1 + 2 * (r[5] / 8 % 4);
    let members = members(guess, any, most, r[5] % 8, step);
    let list = listed(members, class, octet(8 + r[4] / 8 % 2));
    Ready {
        list,
        minute: minute(r[7] / 128 % 16, r[8]),
        budget: budget(list.len, r[6] % 16, r[6] / 16),
    }
}

// The call of a kind in a mode, and what is lent with it, that twelve numbers make.
fn call_from(r: [usize; 12], mode: Mode, kind: Kind, t: usize, guess: Guess) -> Generated {
    let made = call_of(kind, t, mode, guess, r);
    let size = match made {
        Made::Dispatch(plan) => plan.data,
        _ => argument(kind, mode, r[3] % 16, r[4]),
    };
    Generated {
        made,
        size,
        first: written(r[5], r[6]),
        step: written(r[6], r[6]),
        buffer: buffer(kind, mode, r),
        damage: damaged(kind, r),
    }
}

// The Fresh with which a phase of the quiet or the ready mode starts: descriptor d belongs to file d mod 8.
fn fresh_start(r: [usize; 12], mode: Mode, guess: Guess) -> Generated {
    let mut g = call_from(r, mode, Kind::Fresh, 0, guess);
    g.made = Made::Fresh(NumberList {
        numbers: files_by(1, 0),
        len: 16,
    });
    g
}

// Call i that twelve numbers make.
pub fn requested(r: [usize; 12], i: usize, guess: Guess) -> Generated {
    let phase = i / 256;
    let mode = Mode::of_phase(phase);
    if mode.starts_fresh() && i % 256 == 0 {
        return fresh_start(r, mode, guess);
    }
    let t = transaction(phase, r[1]);
    let drawn = sought_first(mode, weighted_kind(mode, r[0]), t, guess);
    let (kind, t) = fitted(mode, drawn, t, guess, r);
    call_from(r, mode, kind, t, guess)
}
