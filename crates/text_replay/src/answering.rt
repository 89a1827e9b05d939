// A line of a log is performed, and what is answered waits in the output buffer.
ghost use Rattle.std.specs.Prelude.{false, ◌≡◌, ◌≤◌, length, take, drop, replicate, is_some};
ghost use Rattle.text_log.specs.Reading.{log_entry_of};
ghost use Rattle.text_log.specs.Replay.{one_more, answered, entry_turn, line_turn};
ghost use Rattle.buffers.specs.Parts.{pasted};
ghost use Rattle.requests.specs.Requests.{call_of};
ghost use Rattle.spec.specs.Calls.{call};
ghost use Rattle.spec.specs.Messages.{Call};
ghost use Rattle.spec.specs.Promises.{LeftAsFound, machine_of};
ghost use Rattle.store.specs.Kept.{machine_in};
ghost use Rattle.text_replay.specs.Performing.{clipped_to, answer_size, order_size, turn_of, Replies};
ghost use Rattle.text_replay.specs.Counting.{CountsDifference};
ghost use Rattle.text_replay.specs.Turns.{replay_state_in, Took, Compared, Versioned, Noted};
ghost use Rattle.text_replay.specs.Bounds.{LineTaken, AnswerIn, Rooms};

use buffers::parts::{copy_to, part};
use requests::Request;
use state::TRANSACTIONS;
use state::layout::State;
use state::outcomes::{Answer, Outcome, Refusal};
use store::Store;
pub use store::{Buffer, UndoLog};
use text_log::{ParsedEntry, put_reply};
use text_numerals::put_byte;

// The bytes of the output buffer, of a Write or of a Read's buffer, and the numbers of a line.
pub const OUTPUT: usize = 131072;

pub const WRITTEN: usize = 4097;

const NUMBERS_READ: usize = 18;

// The version of the format.
const VERSION: usize = 1;

// How many lines of a kind there were, and which was the first.
#[derive(Clone, Copy)]
pub struct Tally {
    pub count: u64,
    pub first: u64,
}

impl Tally {
    // With one more, at that line. The count goes as far as 64 bits do.
    #[tactic(auto, unfolding(text_log::specs::Replay::one_more))]
    fn and_one_at(self, line: u64) -> Tally
        ensures { result.count ≡ one_more self.count }
    {
        let first = if self.count == 0 { line } else { self.first };
        Tally {
            count: self.count.saturating_add(1),
            first,
        }
    }
}

// What is kept between lines beside the store: how many bytes of the line at hand are held, the place in the
// piece, how many bytes of the output wait, where the answer that was printed last starts and ends in it; how
// many lines were written and read; the lines of another form, the answers that differed; whether a line of
// another form ended in byte 13; the version that ended the run, if another one did; whether the run goes on,
// and whether it came to its end with all that it answered written.
#[derive(Clone, Copy)]
pub struct ReplayProgress {
    pub pending: usize,
    pub at: usize,
    pub waiting: usize,
    pub from: usize,
    pub end: usize,
    pub written: u64,
    pub lines: u64,
    pub malformed: Tally,
    pub differing: Tally,
    pub returned: bool,
    pub ended: Option<usize>,
    pub goes: bool,
    pub complete: bool,
}

// What a call answered, and how many bytes of the reader's buffer are the answer's.
#[derive(Clone, Copy)]
pub struct Response {
    pub outcome: Outcome,
    pub size: usize,
}

// A Read of more bytes than the reader's buffer of this program holds, though the call's own holds them, is
// one of as many bytes as it holds: no file has more.
#[tactic(auto, unfolding(crate::specs::Performing::clipped_to))]
fn clipped(q: Request, room: usize) -> Request
    ensures { result ≡ clipped_to room q }
{
    match q {
        Request::Read(t, d, n) if n <= room => Request::Read(t, d, n.min(WRITTEN)),
        _ => q,
    }
}

// How many bytes of the reader's buffer a call of the request answers in, if that has n.
#[tactic(auto, unfolding(crate::specs::Performing::answer_size))]
fn answer_size(q: Request, n: usize) -> usize
    ensures { result ≡ answer_size q n }
{
    match q {
        Request::Read(_, _, _) | Request::Places(_, _) => n,
        _ => 0,
    }
}

fn perform_request(
    state: &mut State,
    files: &mut Buffer,
    logs: &mut Buffer,
    marks: &mut Buffer,
    undo: &mut UndoLog,
    q: Request,
    bytes: &[u8],
    room: usize,
    reader: &mut [u8],
) -> Response
    requires { length reader.old ≡ 4097 }
    ensures { (result.size ≤ 4097)
        × (Replies
        (call (call_of q bytes.now (replicate room 0)) (machine_of state.old files.old logs.old marks.old undo.old))
        result.outcome (machine_of state.new files.new logs.new marks.new undo.new) (take result.size reader.new)
        × LeftAsFound result.outcome state.old state.new) }
{
    let n = room.min(WRITTEN);
    let size = answer_size(q, n);
    let outcome = requests::perform(
        state,
        files,
        logs,
        marks,
        undo,
        clipped(q, room),
        bytes,
        &mut reader[..n],
    );
    Response { outcome, size }
}

// Puts an order to the front of the reader's buffer.
fn put_order(reader: &mut [u8], order: [u8; TRANSACTIONS])
    requires { 8 ≤ length reader.old }
    ensures { (length order ≡ 8) × (reader.new ≡ pasted reader.old 0 order) }
{
    copy_to(reader, 0, &order);
}

// How many bytes of an order of n transactions are answered.
#[tactic(auto, unfolding(crate::specs::Performing::order_size))]
fn order_size(o: Outcome, n: usize) -> usize
    ensures { result ≡ order_size o n }
{
    match o {
        Ok(Answer::Ordered(_, _, _)) => n.min(TRANSACTIONS),
        _ => 0,
    }
}

fn perform_order(
    state: &mut State,
    files: &mut Buffer,
    logs: &mut Buffer,
    marks: &mut Buffer,
    undo: &mut UndoLog,
    list: &[u8],
    minute: usize,
    budget: usize,
    reader: &mut [u8],
) -> Response
    requires { length reader.old ≡ 4097 }
    ensures { (result.size ≤ 4097)
        × (Replies
        (call (Call.best_order list.now minute budget) (machine_of state.old files.old logs.old marks.old undo.old))
        result.outcome (machine_of state.new files.new logs.new marks.new undo.new) (take result.size reader.new)
        × LeftAsFound result.outcome state.old state.new) }
{
    let best = call_order::best_order(state, files, logs, marks, undo, list, minute, budget);
    let outcome = best.outcome;
    put_order(reader, best.order);
    let size = order_size(outcome, list.len());
    Response { outcome, size }
}

// Performs what a line says; one that is no call answers 17.
pub fn perform_line(
    state: &mut State,
    files: &mut Buffer,
    logs: &mut Buffer,
    marks: &mut Buffer,
    undo: &mut UndoLog,
    said: ParsedEntry,
    bytes: &[u8],
    reader: &mut [u8],
) -> Response
    requires { (length bytes.now ≡ 4097) × (length reader.old ≡ 4097) }
    ensures { (result.size ≤ 4097)
        × (Replies (turn_of (log_entry_of said bytes.now) (machine_of state.old files.old logs.old marks.old undo.old))
        result.outcome (machine_of state.new files.new logs.new marks.new undo.new) (take result.size reader.new)
        × LeftAsFound result.outcome state.old state.new) }
{
    match said {
        ParsedEntry::Fresh(n) => {
            let list = &bytes[..n.min(bytes.len())];
            let outcome = store::fresh(state, files, logs, marks, undo, list);
            Response { outcome, size: 0 }
        }
        ParsedEntry::Asks(q, n, room) => {
            let list = &bytes[..n.min(bytes.len())];
            perform_request(state, files, logs, marks, undo, q, list, room, reader)
        }
        ParsedEntry::Order(minute, budget, n) => {
            let list = &bytes[..n.min(bytes.len())];
            perform_order(
                state, files, logs, marks, undo, list, minute, budget, reader,
            )
        }
        ParsedEntry::Another
        | ParsedEntry::Comment
        | ParsedEntry::Expects
        | ParsedEntry::Version(_) => Response {
            outcome: Err(Refusal::BadLine),
            size: 0,
        },
    }
}

// Performs what a line says, and prints what was answered after the output that waits.
fn answer(
    mut p: ReplayProgress,
    store: &mut Store,
    said: ParsedEntry,
    bytes: &[u8],
    reader: &mut [u8],
    out: &mut [u8],
) -> ReplayProgress
    requires { (p.waiting ≤ 40000) × Rooms bytes.now reader.old out.old }
    ensures { LineTaken p result × Took
        (answered (turn_of (log_entry_of said bytes.now) (machine_in store.old))
        (replay_state_in p (machine_in store.old) out.old))
        (take p.waiting out.old)
        (replay_state_in result (machine_in store.new) out.new)
        (take result.waiting out.new) }
{
    let a = perform_line(
        &mut store.state,
        &mut store.files,
        &mut store.logs,
        &mut store.marks,
        &mut store.undo,
        said,
        bytes,
        reader,
    );
    p.from = p.waiting;
    p.end = put_reply(out, p.from, a.outcome, part(reader, 0, a.size));
    p.waiting = put_byte(out, p.end, b'\n');
    p
}

// Compares an answer of the log with the one that was printed last.
#[tactic(auto, using(crate::proofs::Laws::same_pointwise))]
fn expect(mut p: ReplayProgress, text: &[u8], answer: &[u8]) -> ReplayProgress
    ensures { CountsDifference p result text.now answer.now }
{
    if text == answer {
        return p;
    }
    p.differing = p.differing.and_one_at(p.lines);
    p
}

// Compares the answer behind `= ` with the one that was printed last.
fn expect_line(p: ReplayProgress, line: &[u8], out: &[u8]) -> ReplayProgress
    requires { (p.waiting ≤ 40000) × (AnswerIn p × (length out.now ≡ 131072)) }
    ensures { LineTaken p result × Compared p result (drop 2 line.now) out.now }
{
    let text = &line[line.len().min(2)..];
    expect(p, text, &out[p.from..p.end])
}

// Another version ends the run.
fn take_version(mut p: ReplayProgress, version: usize) -> ReplayProgress
    requires { (p.waiting ≤ 40000) × (AnswerIn p × (is_some p.ended ≡ false)) }
    ensures { LineTaken p result × Versioned p result version }
{
    if version == VERSION {
        return p;
    }
    p.ended = Some(version);
    p
}

// Counts a line of another form, and notes whether it ends in byte 13.
fn note_malformed(mut p: ReplayProgress, line: &[u8]) -> ReplayProgress
    requires { (p.waiting ≤ 40000) × AnswerIn p }
    ensures { LineTaken p result × Noted p result }
{
    p.malformed = p.malformed.and_one_at(p.lines);
    p.returned |= ends_returned(line);
    p
}

// Whether a line, not one that is too long, ends in byte 13.
fn ends_returned(line: &[u8]) -> bool {
    line.len() <= text_log::LONGEST && line.last() == Some(&b'\r')
}

// Does what a line says.
fn act(
    p: ReplayProgress,
    store: &mut Store,
    said: ParsedEntry,
    line: &[u8],
    bytes: &[u8],
    reader: &mut [u8],
    out: &mut [u8],
) -> ReplayProgress
    requires { (p.waiting ≤ 40000) × (AnswerIn p × ((is_some p.ended ≡ false)
        × Rooms bytes.now reader.old out.old)) }
    ensures { LineTaken p result × Took
        (entry_turn line.now (log_entry_of said bytes.now)
        (replay_state_in p (machine_in store.old) out.old))
        (take p.waiting out.old)
        (replay_state_in result (machine_in store.new) out.new)
        (take result.waiting out.new) }
{
    match said {
        ParsedEntry::Comment => p,
        ParsedEntry::Expects => expect_line(p, line, out),
        ParsedEntry::Version(v) => take_version(p, v),
        ParsedEntry::Another => {
            let q = note_malformed(p, line);
            answer(q, store, said, bytes, reader, out)
        }
        ParsedEntry::Fresh(_) | ParsedEntry::Asks(_, _, _) | ParsedEntry::Order(_, _, _) => {
            answer(p, store, said, bytes, reader, out)
        }
    }
}

// Performs a line; after another version none.
pub fn take_line(
    mut p: ReplayProgress,
    store: &mut Store,
    line: &[u8],
    bytes: &mut [u8],
    reader: &mut [u8],
    out: &mut [u8],
) -> ReplayProgress
    requires { (p.waiting ≤ 40000) × (AnswerIn p × Rooms bytes.old reader.old out.old) }
    ensures { LineTaken p result × Took
        (line_turn line.now (replay_state_in p (machine_in store.old) out.old))
        (take p.waiting out.old)
        (replay_state_in result (machine_in store.new) out.new)
        (take result.waiting out.new) }
{
    if p.ended.is_some() {
        return p;
    }
    p.lines = p.lines.saturating_add(1);
    let mut numbers = [0usize; NUMBERS_READ];
    let said = text_log::parse_entry(line, &mut numbers, bytes);
    act(p, store, said, line, bytes, reader, out)
}
