// The state's meaning, read from its numbers and put into them by name.
#![tactic(auto, using(buffers::proofs::TableLaws::get_d_tabulate, crate::proofs::LayoutLaws::standings_of), unfolding(crate::specs::Layout::descriptor_of, crate::specs::Layout::used_of, crate::specs::Layout::transaction_of, crate::specs::Layout::window_of, crate::specs::Layout::undo_of, crate::specs::Layout::store_of, crate::specs::Updates::with_descriptor_at, crate::specs::Updates::with_chosen_at, crate::specs::Updates::with_used_at, crate::specs::Updates::zeroed_at, crate::specs::Updates::reset_at, crate::specs::Updates::with_file_numbers_at, crate::specs::Updates::copied_to))]

ghost use Rattle.std.specs.Prelude.{true, false, ◌≡◌, ℕ, ◌+◌, ◌<◌, ◌≤◌, length, get_or, replicate};
ghost use Rattle.limits.specs.Limits.{file_count, descriptor_count, transaction_count};
ghost use Rattle.state.specs.StoreMeaning.{standing_at, no_descriptor, window_at};
ghost use Rattle.state.specs.Layout.{standing_of};
ghost use Rattle.state.specs.Updates.{first_number, second_number, StandingFits};
ghost use Rattle.state.specs.Layout.{descriptor_of, transaction_of, store_of};
ghost use Rattle.state.specs.Updates.{with_descriptor_at, with_chosen_at, with_used_at, reset_at};
ghost use Rattle.state.specs.Updates.{with_stale_at, with_lengthmarks_at};
ghost use Rattle.state.specs.Updates.{with_file_number_at, with_file_numbers_at};
ghost use Rattle.state.specs.Updates.{with_offset_at, with_length_at, with_window_at};
ghost use Rattle.state.specs.Updates.{with_undo_valid_at, with_undo_used_at, with_found_offset_at};
ghost use Rattle.state.specs.Updates.{with_found_length_at};
ghost use Rattle.state.specs.Layout.{state_length};
ghost use Rattle.state.specs.Updates.{copied_to, with_committed_found, with_found_committed};

use crate::positions::{
    ADVANCE_BIAS, BEGUN_AT, BYTES_AT, DIRTY_AT, ENDS_AT, FILE_NUMBERS_AT, FOUND_AT,
    FOUND_LENGTHS_AT, KNOWN, LENGTHMARKS_AT, LENGTHS_AT, OFFSET_BIAS, OFFSETS_AT, RECORDS_AT,
    SECOND, STALE_AT, STARTS_AT, TRANSACTION, TRANSACTIONS_AT, UNDO_VALID_AT, first_at, second_at,
};
use crate::{DESCRIPTORS, Descriptor, FILES, TRANSACTIONS, Transaction};
use buffers::bit_sets;
use counters::Used;
use standings::Standing;
use windows::Window;

// How many numbers a state has.
pub const STATE_LEN: usize = UNDO_VALID_AT + 3;

// The state, as a caller keeps it and lends it to every call.
pub type State = [u16; STATE_LEN];

// How many numbers the last grant found: sixteen offsets, eight lengths.
pub const FOUND: usize = DESCRIPTORS + FILES;

// Sets every number of the state to 0.
pub fn clear(state: &mut State)
    ensures { state.new ≡ replicate state_length 0 }
{
    state.fill(0);
}

// ---- numbers and what they mean

fn standing_of(a: u16, b: u16) -> Standing
    ensures { result ≡ standing_of a b }
{
    match (a, b) {
        (_, KNOWN) => Standing::Known(a.saturating_sub(OFFSET_BIAS)),
        (0, 0) => Standing::Untouched,
        (_, 0) => Standing::Placed(a - OFFSET_BIAS),
        (0, _) => Standing::Deferred(b - ADVANCE_BIAS),
        _ => Standing::Moved {
            advance: b - ADVANCE_BIAS,
            offset: a - OFFSET_BIAS,
        },
    }
}

fn first_of(standing: Standing) -> u16
    requires { StandingFits standing }
    ensures { result ≡ first_number standing }
{
    match standing {
        Standing::Untouched | Standing::Deferred(_) => 0,
        Standing::Placed(offset) | Standing::Moved { offset, .. } | Standing::Known(offset) => {
            offset + OFFSET_BIAS
        }
    }
}

fn second_of(standing: Standing) -> u16
    requires { StandingFits standing }
    ensures { result ≡ second_number standing }
{
    match standing {
        Standing::Untouched | Standing::Placed(_) => 0,
        Standing::Deferred(advance) | Standing::Moved { advance, .. } => advance + ADVANCE_BIAS,
        Standing::Known(_) => KNOWN,
    }
}

// ---- reading: a line each, as what it reads is called; a helper that is told the place would be as long

pub fn is_begun(state: &State, t: usize) -> bool
    requires { t < transaction_count }
    ensures { result ≡ (transaction_of state.now t).begun }
{
    state[BEGUN_AT + t] == 1
}

pub fn is_stale(state: &State, t: usize) -> bool
    requires { t < transaction_count }
    ensures { result ≡ (transaction_of state.now t).stale }
{
    state[STALE_AT + t] == 1
}

pub fn lengthmarks_at(state: &State, t: usize) -> u16
    requires { t < transaction_count }
    ensures { result ≡ (transaction_of state.now t).lengthmarks }
{
    state[LENGTHMARKS_AT + t]
}

pub fn used_at(state: &State, t: usize) -> Used
    requires { t < transaction_count }
    ensures { result ≡ (transaction_of state.now t).used }
{
    let records = usize::from(state[RECORDS_AT + t]);
    let bytes = state[BYTES_AT + t];
    Used { records, bytes }
}

// The standing of descriptor d in transaction t.
pub fn standing_at(state: &State, t: usize, d: usize) -> Standing
    requires { (t < transaction_count) × (d < descriptor_count) }
    ensures { result ≡ standing_at (transaction_of state.now t) d }
{
    let a = first_at(state, t, d);
    let b = second_at(state, t, d);
    standing_of(a, b)
}

pub fn descriptor_at(state: &State, t: usize, d: usize) -> Descriptor
    requires { (t < transaction_count) × (d < descriptor_count) }
    ensures { result ≡ descriptor_of state.now t d }
{
    let standing = standing_at(state, t, d);
    let dirty = state[DIRTY_AT + t];
    Descriptor {
        standing,
        dirty: bit_sets::has_bit(dirty, d),
    }
}

// A quick test: if it is true, descriptor d of transaction t is Untouched and not dirty.
fn is_blank_at(state: &State, t: usize, d: usize) -> bool
    requires { (t < transaction_count) × (d < descriptor_count) }
    ensures { result ≡ true → descriptor_of state.now t d ≡ no_descriptor }
{
    let a = first_at(state, t, d);
    let b = second_at(state, t, d);
    let dirty = state[DIRTY_AT + t];
    (a == 0) & (b == 0) & !bit_sets::has_bit(dirty, d)
}

// The sixteen descriptors of transaction t. Only those that are not blank are read out.
fn descriptors_at(state: &State, t: usize) -> [Descriptor; DESCRIPTORS]
    requires { t < transaction_count }
    ensures { result ≡ (transaction_of state.now t).descriptors }
{
    let blank = Descriptor {
        standing: Standing::Untouched,
        dirty: false,
    };
    let mut all = [blank; DESCRIPTORS];
    for d in 0..DESCRIPTORS {
        if !is_blank_at(state, t, d) {
            all[d] = descriptor_at(state, t, d);
        }
    }
    all
}

// Transaction t.
pub fn transaction_at(state: &State, t: usize) -> Transaction
    requires { t < transaction_count }
    ensures { result ≡ transaction_of state.now t }
{
    let begun = is_begun(state, t);
    let stale = is_stale(state, t);
    let lengthmarks = lengthmarks_at(state, t);
    let used = used_at(state, t);
    let descriptors = descriptors_at(state, t);
    Transaction {
        begun,
        stale,
        lengthmarks,
        used,
        descriptors,
    }
}

// The file number of descriptor d.
pub fn file_at(state: &State, d: usize) -> u16
    requires { d < descriptor_count }
    ensures { result ≡ get_or (store_of state.now).filenumbers d 0 }
{
    state[FILE_NUMBERS_AT + d]
}

// The committed offset of descriptor d.
pub fn offset_at(state: &State, d: usize) -> u16
    requires { d < descriptor_count }
    ensures { result ≡ get_or (store_of state.now).offsets d 0 }
{
    state[OFFSETS_AT + d]
}

// The committed length of file f.
pub fn length_at(state: &State, f: usize) -> u16
    requires { f < file_count }
    ensures { result ≡ get_or (store_of state.now).lengths f 0 }
{
    state[LENGTHS_AT + f]
}

// The window of file f.
pub fn window_at(state: &State, f: usize) -> Window
    requires { f < file_count }
    ensures { result ≡ window_at (store_of state.now) f }
{
    let start = state[STARTS_AT + f];
    let end = state[ENDS_AT + f];
    Window { start, end }
}

// Whether the last grant can be undone.
pub fn can_undo(state: &State) -> bool
    ensures { result ≡ (store_of state.now).undo.valid }
{
    state[UNDO_VALID_AT] == 1
}

// How many write records and bytes the last grant had.
pub fn undo_used(state: &State) -> Used
    ensures { result ≡ (store_of state.now).undo.used }
{
    let records = usize::from(state[UNDO_VALID_AT + 1]);
    let bytes = state[UNDO_VALID_AT + 2];
    Used { records, bytes }
}

// The offset of descriptor d that the last grant found.
pub fn found_offset_at(state: &State, d: usize) -> u16
    requires { d < descriptor_count }
    ensures { result ≡ get_or (store_of state.now).undo.offsets d 0 }
{
    state[FOUND_AT + d]
}

// The length of file f that the last grant found.
pub fn found_length_at(state: &State, f: usize) -> u16
    requires { f < file_count }
    ensures { result ≡ get_or (store_of state.now).undo.lengths f 0 }
{
    state[FOUND_LENGTHS_AT + f]
}

// ---- putting

// Puts q in the place of descriptor d of transaction t.
pub fn put_descriptor(state: &mut State, t: usize, d: usize, q: Descriptor)
    requires { (t < transaction_count) × (d < descriptor_count) × StandingFits q.standing }
    ensures { state.new ≡ with_descriptor_at state.old t d q }
{
    let dirty = state[DIRTY_AT + t];
    state[TRANSACTIONS_AT + TRANSACTIONS * d + t] = first_of(q.standing);
    state[TRANSACTIONS_AT + TRANSACTIONS * (SECOND + d) + t] = second_of(q.standing);
    state[DIRTY_AT + t] = bit_sets::put(dirty, d, q.dirty);
}

// Puts those of the sixteen descriptors of transaction t that are chosen.
pub fn put_chosen(
    state: &mut State,
    t: usize,
    chosen: [bool; DESCRIPTORS],
    all: [Descriptor; DESCRIPTORS],
)
    requires { (t < transaction_count) × ((e : ℕ) → e < descriptor_count → get_or chosen e false ≡ true
        → StandingFits (get_or all e no_descriptor).standing) }
    ensures { state.new
        ≡ with_chosen_at state.old t (λ e. get_or chosen e false) (λ e. get_or all e no_descriptor)
        descriptor_count }
{
    for e in 0..DESCRIPTORS {
        if chosen[e] {
            put_descriptor(state, t, e, all[e]);
        }
    }
}

// Puts the two counters of transaction t.
pub fn put_used(state: &mut State, t: usize, u: Used)
    requires { (t < transaction_count) × (u.records < 65536) }
    ensures { state.new ≡ with_used_at state.old t u }
{
    state[RECORDS_AT + t] = u.records as u16;
    state[BYTES_AT + t] = u.bytes;
}

// Makes transaction t stale.
pub fn put_stale(state: &mut State, t: usize)
    requires { t < transaction_count }
    ensures { state.new ≡ with_stale_at state.old t }
{
    state[STALE_AT + t] = 1;
}

// Puts the lengths that transaction t has sighted.
pub fn put_lengthmarks(state: &mut State, t: usize, n: u16)
    requires { t < transaction_count }
    ensures { state.new ≡ with_lengthmarks_at state.old t n }
{
    state[LENGTHMARKS_AT + t] = n;
}

// Makes transaction t one that has ended, or one just begun.
pub fn reset(state: &mut State, t: usize, begun: bool)
    requires { t < transaction_count }
    ensures { state.new ≡ reset_at state.old t begun }
{
    for k in 0..TRANSACTION {
        state[TRANSACTIONS_AT + TRANSACTIONS * k + t] = 0;
    }
    state[BEGUN_AT + t] = u16::from(begun);
}

pub fn put_file(state: &mut State, d: usize, n: u16)
    requires { d < descriptor_count }
    ensures { state.new ≡ with_file_number_at state.old d n }
{
    state[FILE_NUMBERS_AT + d] = n;
}

// Puts the sixteen file numbers.
pub fn put_files(state: &mut State, numbers: &[u8])
    requires { length numbers.now ≡ descriptor_count }
    ensures { state.new
        ≡ with_file_numbers_at state.old (λ d. get_or numbers.now d 0) descriptor_count }
{
    for d in 0..DESCRIPTORS {
        put_file(state, d, u16::from(numbers[d]));
    }
}

pub fn put_offset(state: &mut State, d: usize, n: u16)
    requires { d < descriptor_count }
    ensures { state.new ≡ with_offset_at state.old d n }
{
    state[OFFSETS_AT + d] = n;
}

pub fn put_length(state: &mut State, f: usize, n: u16)
    requires { f < file_count }
    ensures { state.new ≡ with_length_at state.old f n }
{
    state[LENGTHS_AT + f] = n;
}

pub fn put_window(state: &mut State, f: usize, w: Window)
    requires { f < file_count }
    ensures { state.new ≡ with_window_at state.old f w }
{
    state[STARTS_AT + f] = w.start;
    state[ENDS_AT + f] = w.end;
}

pub fn put_undo_valid(state: &mut State, valid: bool)
    ensures { state.new ≡ with_undo_valid_at state.old valid }
{
    state[UNDO_VALID_AT] = u16::from(valid);
}

pub fn put_undo_used(state: &mut State, u: Used)
    requires { u.records < 65536 }
    ensures { state.new ≡ with_undo_used_at state.old u }
{
    state[UNDO_VALID_AT + 1] = u.records as u16;
    state[UNDO_VALID_AT + 2] = u.bytes;
}

pub fn put_found_offset(state: &mut State, d: usize, n: u16)
    requires { d < descriptor_count }
    ensures { state.new ≡ with_found_offset_at state.old d n }
{
    state[FOUND_AT + d] = n;
}

pub fn put_found_length(state: &mut State, f: usize, n: u16)
    requires { f < file_count }
    ensures { state.new ≡ with_found_length_at state.old f n }
{
    state[FOUND_LENGTHS_AT + f] = n;
}

// Copies the n numbers from `from` on to those from `to` on. One after the other, which is quicker here than
// `copy_within`.
fn copy_numbers(state: &mut State, from: usize, to: usize, n: usize)
    requires { (from + n ≤ state_length) × (to + n ≤ state_length) }
    ensures { state.new ≡ copied_to state.old from to n }
{
    for i in 0..n {
        state[to + i] = state[from + i];
    }
}

// Keeps the committed offsets and lengths as those that a grant found.
pub fn save_found(state: &mut State)
    ensures { state.new ≡ with_committed_found state.old }
{
    copy_numbers(state, OFFSETS_AT, FOUND_AT, FOUND);
}

// Puts the offsets and lengths that the last grant found back as the committed ones.
pub fn put_found(state: &mut State)
    ensures { state.new ≡ with_found_committed state.old }
{
    copy_numbers(state, FOUND_AT, OFFSETS_AT, FOUND);
}
