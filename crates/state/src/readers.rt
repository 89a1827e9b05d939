// Tests of what the state holds, made on its numbers: none takes a standing apart, and those that go over
// several have no branch. What they promise speaks of the meaning alone.
#![tactic(auto, using(crate::proofs::ReaderLaws::tests), unfolding(crate::specs::Layout::transaction_of, crate::specs::Layout::used_of))]

ghost use Rattle.std.specs.Prelude.{false, not, ◌&&◌, ◌||◌, ◌≡◌, leb, eqb, get_or, length, ℕ, ◌+◌, ◌<◌, ◌≤◌};
ghost use Rattle.limits.specs.Limits.{file_count, descriptor_count, transaction_count};
ghost use Rattle.buffers.specs.Below.{below};
ghost use Rattle.standings.specs.Table.{read_settles, is_known, may_wait, advance, offset_of};
ghost use Rattle.state.specs.StoreMeaning.{standing_at, dirty_at, window_at};
ghost use Rattle.state.specs.Layout.{transaction_of, store_of, state_length};
ghost use Rattle.state.specs.Layout.{file_numbers_at, offsets_at, lengths_at, starts_at};

use crate::layout::{FOUND, State, is_begun};
use crate::positions::{
    ADVANCE_BIAS, BYTES_AT, DIRTY_AT, FILE_NUMBERS_AT, FOUND_AT, KNOWN, LENGTHS_AT, OFFSET_BIAS,
    OFFSETS_AT, RECORDS_AT, STARTS_AT, first_at, second_at,
};
use crate::{DESCRIPTORS, FILES, TRANSACTIONS};

// What is added to an advance, as a length has it.
const WIDE_BIAS: usize = ADVANCE_BIAS as usize;

// ---- one standing

// Descriptor d stands Known in transaction t.
pub fn is_known_at(state: &State, t: usize, d: usize) -> bool
    requires { (t < transaction_count) × (d < descriptor_count) }
    ensures { result ≡ is_known (standing_at (transaction_of state.now t) d) }
{
    second_at(state, t, d) == KNOWN
}

// A Read settles descriptor d in transaction t. of_file: d is of the file that is read; is_it: d is the
// descriptor that is read through.
pub fn read_settles_at(state: &State, t: usize, d: usize, of_file: bool, is_it: bool) -> bool
    requires { (t < transaction_count) × (d < descriptor_count) }
    ensures { result
        ≡ read_settles of_file is_it (standing_at (transaction_of state.now t) d) }
{
    let a = first_at(state, t, d);
    let b = second_at(state, t, d);
    ((KNOWN < b) & of_file) | ((a == 0) & (b == 0) & is_it)
}

// A write record without a place may wait under descriptor d in transaction t, and `end` is at most the
// advance there.
pub fn may_wait_to(state: &State, t: usize, d: usize, end: usize) -> bool
    requires { (t < transaction_count) × (d < descriptor_count) × (end ≤ 131070) }
    ensures { result ≡ may_wait (standing_at (transaction_of state.now t) d)
        && leb end (advance (standing_at (transaction_of state.now t) d)) }
{
    let b = usize::from(second_at(state, t, d));
    end + WIDE_BIAS <= b
}

// ---- the eight transactions at once: one vector is eight transactions, an open one a mask

// How much x is above `most`; 0 where it is not.
fn excess(x: u16, most: u16) -> u16
    ensures { eqb result 0 ≡ leb x most }
{
    x.saturating_sub(most)
}

// How far the advances and offsets that the standings of transaction t carry are above `most`, all together;
// 0 where none is.
fn own_excess(state: &State, t: usize, most: u16) -> u16
    requires { (t < transaction_count) × (most ≤ 65533) }
    ensures { eqb result 0
        ≡ below (λ d. leb (advance (standing_at (transaction_of state.now t) d)) most
        && leb (offset_of (standing_at (transaction_of state.now t) d)) most) descriptor_count }
{
    let mut bad = 0u16;
    for d in 0..DESCRIPTORS {
        let a = first_at(state, t, d);
        let b = second_at(state, t, d);
        let more = excess(b, most + ADVANCE_BIAS) | excess(a, most + OFFSET_BIAS);
        bad |= more;
    }
    bad
}

// How far the counters of transaction t and what its standings carry are above their bounds, all together; 0
// where none is, and where t is not open.
fn open_excess(state: &State, t: usize, records: u16, bytes: u16, most: u16) -> u16
    requires { (t < transaction_count) × (most ≤ 65533) }
    ensures { eqb result 0 ≡ (not (transaction_of state.now t).begun
        || (leb (transaction_of state.now t).used.records records
        && leb (transaction_of state.now t).used.bytes bytes
        && below (λ d. leb (advance (standing_at (transaction_of state.now t) d)) most
        && leb (offset_of (standing_at (transaction_of state.now t) d)) most) descriptor_count)) }
{
    let own = own_excess(state, t, most);
    let u = excess(state[RECORDS_AT + t], records);
    let v = excess(state[BYTES_AT + t], bytes);
    if is_begun(state, t) {
        return u | v | own;
    }
    0
}

// Each open transaction has at most so many records and bytes, and its standings carry at most `most`.
pub fn open_at_most(state: &State, records: u16, bytes: u16, most: u16) -> bool
    requires { most ≤ 65533 }
    ensures { result ≡ below (λ t. not (transaction_of state.now t).begun
        || (leb (transaction_of state.now t).used.records records
        && leb (transaction_of state.now t).used.bytes bytes
        && below (λ d. leb (advance (standing_at (transaction_of state.now t) d)) most
        && leb (offset_of (standing_at (transaction_of state.now t) d)) most) descriptor_count))
        transaction_count }
{
    let mut bad = 0u16;
    for t in 0..TRANSACTIONS {
        bad |= open_excess(state, t, records, bytes, most);
    }
    bad == 0
}

// Transaction t is not open, or has at most so many records and bytes.
pub fn uses_at_most(state: &State, t: usize, records: u16, bytes: u16) -> bool
    requires { t < transaction_count }
    ensures { result ≡ (not (transaction_of state.now t).begun
        || (leb (transaction_of state.now t).used.records records
        && leb (transaction_of state.now t).used.bytes bytes)) }
{
    let begun = is_begun(state, t);
    let u = state[RECORDS_AT + t];
    let v = state[BYTES_AT + t];
    !begun | ((u <= records) & (v <= bytes))
}

// Each open transaction has at most so many records and bytes.
pub fn all_use_at_most(state: &State, records: u16, bytes: u16) -> bool
    ensures { result ≡ below (λ t. not (transaction_of state.now t).begun
        || (leb (transaction_of state.now t).used.records records
        && leb (transaction_of state.now t).used.bytes bytes)) transaction_count }
{
    let mut good = true;
    for t in 0..TRANSACTIONS {
        good &= uses_at_most(state, t, records, bytes);
    }
    good
}

// Whether a descriptor of transaction t may be dirty: where this says no, none is.
pub fn any_dirty(state: &State, t: usize) -> bool
    requires { t < transaction_count }
    ensures { result ≡ false → (d : ℕ) → d < descriptor_count
        → dirty_at (transaction_of state.now t) d ≡ false }
{
    state[DIRTY_AT + t] != 0
}

// ---- the tables

// The numbers are at most `most`.
fn at_most(numbers: &[u16], most: u16) -> bool
    ensures { result ≡ below (λ k. leb (get_or numbers.now k 0) most) (length numbers.now) }
{
    let mut good = true;
    for n in numbers {
        good &= *n <= most;
    }
    good
}

// How far entries k and 8 + k of the sixteen from `from` on are above `most`, together.
fn two_excess(state: &State, from: usize, k: usize, most: u16) -> u16
    requires { (k < file_count) × (from + descriptor_count ≤ state_length) }
    ensures { eqb result 0 ≡ leb (get_or state.now (from + k) 0) most
        && leb (get_or state.now (from + (file_count + k)) 0) most }
{
    let a = excess(state[from + k], most);
    let b = excess(state[from + (FILES + k)], most);
    a | b
}

// How far entries k and 8 + k of the tables are above their bounds, all together.
fn tables_excess(state: &State, k: usize, file: u16, offset: u16, length: u16, minute: u16) -> u16
    requires { k < file_count }
    ensures { eqb result 0 ≡ (leb (get_or state.now (file_numbers_at + k) 0) file
        && leb (get_or state.now (file_numbers_at + (file_count + k)) 0) file)
        && (leb (get_or state.now (offsets_at + k) 0) offset
        && leb (get_or state.now (offsets_at + (file_count + k)) 0) offset)
        && leb (get_or state.now (lengths_at + k) 0) length
        && (leb (get_or state.now (starts_at + k) 0) minute
        && leb (get_or state.now (starts_at + (file_count + k)) 0) minute) }
{
    let files = two_excess(state, FILE_NUMBERS_AT, k, file);
    let offsets = two_excess(state, OFFSETS_AT, k, offset);
    let lengths = excess(state[LENGTHS_AT + k], length);
    let windows = two_excess(state, STARTS_AT, k, minute);
    files | offsets | lengths | windows
}

// The file numbers, committed offsets, committed lengths, and the starts and ends of the windows are at most
// so much each. All in one loop: one vector is entry k of each table.
pub fn tables_at_most(state: &State, file: u16, offset: u16, length: u16, minute: u16) -> bool
    ensures { result
        ≡ below (λ d. leb (get_or (store_of state.now).filenumbers d 0) file) descriptor_count
        && below (λ d. leb (get_or (store_of state.now).offsets d 0) offset) descriptor_count
        && below (λ f. leb (get_or (store_of state.now).lengths f 0) length) file_count
        && below (λ f. leb (window_at (store_of state.now) f).start minute
        && leb (window_at (store_of state.now) f).end minute) file_count }
{
    let mut bad = 0u16;
    for k in 0..FILES {
        bad |= tables_excess(state, k, file, offset, length, minute);
    }
    bad == 0
}

// The offsets and lengths that the last grant found are at most `most`.
pub fn found_at_most(state: &State, most: u16) -> bool
    ensures { result
        ≡ below (λ d. leb (get_or (store_of state.now).undo.offsets d 0) most) descriptor_count
        && below (λ f. leb (get_or (store_of state.now).undo.lengths f 0) most) file_count }
{
    at_most(&state[FOUND_AT..FOUND_AT + FOUND], most)
}
