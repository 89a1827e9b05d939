// The journal: the write records of all transactions and of the last grant, the state's first 1,728 numbers.
// A write record takes three numbers in a row: its descriptor, with 16 added while it has no place; its
// place, or the advance before it; its length. Transaction t's 64 records stand from 3 × 64 × t on, those of
// the last grant behind them as part 8. Only this module and specs/Journal.antt know that.
#![tactic(auto, using(crate::proofs::LayoutLaws::record_of, crate::proofs::ReaderLaws::record_tests), unfolding(crate::specs::Journal::write_record_at, crate::specs::Journal::with_record_at, crate::specs::Journal::decoded, crate::specs::Journal::decoded_as))]

ghost use Rattle.std.specs.Prelude.{◌≡◌, ◌<◌};
ghost use Rattle.limits.specs.Limits.{transaction_count, record_count};
ghost use Rattle.state.specs.Journal.{journal_parts, descriptor_code, write_record_at, with_record_at};
ghost use Rattle.state.specs.WriteEnds.{ends_by};
ghost use Rattle.state.specs.Layout.{journal_of, transaction_of};

use crate::layout::State;
use crate::readers::may_wait_to;
pub use limits::RECORDS;
use limits::{DESCRIPTORS, TRANSACTIONS};
use standings::Place;

// The part of the journal that has the last grant's write records.
pub const LAST_GRANT: usize = TRANSACTIONS;

// What is added to the descriptor of a record without a place, and the last number that this gives.
const UNPLACED: u16 = DESCRIPTORS as u16;

const LAST_UNPLACED: usize = 2 * DESCRIPTORS - 1;

// A write record: through which descriptor, where, and how many bytes.
#[derive(Clone, Copy)]
pub struct WriteRecord {
    pub descriptor: u16,
    pub place: Place,
    pub length: u16,
}

// Write record k of part t, which is transaction t's or the last grant's.
pub fn record_at(state: &State, t: usize, k: usize) -> WriteRecord
    requires { (t < journal_parts) × (k < record_count) }
    ensures { result ≡ write_record_at (journal_of state.now) t k }
{
    let i = 3 * (RECORDS * t + k);
    let h = state[i];
    let p = state[i + 1];
    let length = state[i + 2];
    let (descriptor, place) = if h < UNPLACED {
        (h, Place::At(p))
    } else {
        (h - UNPLACED, Place::After(p))
    };
    WriteRecord {
        descriptor,
        place,
        length,
    }
}

// Write record k of transaction t has a descriptor, and ends at most at `most` or, while it has no place,
// within the advance under which it waits. No record is made for it.
pub fn ends_by(state: &State, t: usize, k: usize, most: usize) -> bool
    requires { (t < transaction_count) × (k < record_count) }
    ensures { result ≡ ends_by most (transaction_of state.now t)
        (write_record_at (journal_of state.now) t k) }
{
    let i = 3 * (RECORDS * t + k);
    let h = usize::from(state[i]);
    let end = usize::from(state[i + 1]) + usize::from(state[i + 2]);
    if h < DESCRIPTORS {
        return end <= most;
    }
    if LAST_UNPLACED < h {
        return false;
    }
    may_wait_to(state, t, h - DESCRIPTORS, end)
}

// The length of write record k of part t.
pub fn record_length(state: &State, t: usize, k: usize) -> u16
    requires { (t < journal_parts) × (k < record_count) }
    ensures { result ≡ (write_record_at (journal_of state.now) t k).length }
{
    state[3 * (RECORDS * t + k) + 2]
}

// The descriptor's number as the journal holds it.
fn descriptor_code(d: u16, place: Place) -> u16
    requires { d < 65520 }
    ensures { result ≡ descriptor_code d place }
{
    match place {
        Place::At(_) => d,
        Place::After(_) => UNPLACED + d,
    }
}

// Puts w in the place of write record k of part t.
pub fn put_record(state: &mut State, t: usize, k: usize, w: WriteRecord)
    requires { (t < journal_parts) × (k < record_count) × (w.descriptor < 65520) }
    ensures { state.new ≡ with_record_at state.old t k w }
{
    let i = 3 * (RECORDS * t + k);
    let place = w.place;
    state[i] = descriptor_code(w.descriptor, place);
    state[i + 1] = place.place_number();
    state[i + 2] = w.length;
}
