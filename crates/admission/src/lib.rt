// The tests that calls share: the ranges of the state (refusal 2), and refusals 1 to 3, 6, 14 and 22 to 24
// in their order.
#![tactic(auto)]

ghost use Rattle.std.specs.Prelude.{◌≡◌, true, not, ◌&&◌, ◌||◌, leb, get_or, length, ◌<◌, ◌≤◌};
ghost use Rattle.limits.specs.Limits.{last_file, descriptor_count, transaction_count, record_count, log_bytes};
ghost use Rattle.standings.specs.declared.Standing.TheVariants.{Untouched};
ghost use Rattle.state.specs.StoreMeaning.{standing_at};
ghost use Rattle.state.specs.Layout.{transaction_of, store_of, journal_of, state_length};
ghost use Rattle.admission.specs.FirstRefusal.{below};
ghost use Rattle.admission.specs.Admission.{standing_in, journal_passes, transaction_in, tables_in};
ghost use Rattle.admission.specs.Admission.{place_in, grant_passes, undo_in, store_in, sized, sizes_in};
ghost use Rattle.admission.specs.Admission.{none_begun};
ghost use Rattle.admission.specs.Admission.{first_tests, shared, admission_of_window, admission_of_undo};
ghost use Rattle.admission.specs.Admission.{admission_of_fresh, gate_number};

use limits::{
    BUFFER_BYTES, FILE_BYTES, FILE_END, LAST_DESCRIPTOR, LAST_FILE, LAST_MINUTE, LAST_TRANSACTION,
    LOG_BYTES, UNDO_BYTES,
};
use standings::Place;
use state::journal::{LAST_GRANT, RECORDS, ends_by, record_at, record_length};
use state::layout::{State, can_undo, is_begun, undo_used, used_at};
use state::outcomes::Refusal;
use state::readers::{all_use_at_most, found_at_most, open_at_most, tables_at_most, uses_at_most};
use state::{DESCRIPTORS, TRANSACTIONS};
use windows::minute_in;

// The lengths of the four store buffers that a call is lent.
#[derive(Clone, Copy)]
pub struct Sizes {
    pub files: usize,
    pub logs: usize,
    pub marks: usize,
    pub undo: usize,
}

impl Sizes {
    pub fn of(files: &[u8], logs: &[u8], marks: &[u8], undo: &[u8]) -> Sizes
        ensures { result ≡ sized (length files.now) (length logs.now) (length marks.now) (length undo.now) }
    {
        Sizes {
            files: files.len(),
            logs: logs.len(),
            marks: marks.len(),
            undo: undo.len(),
        }
    }

    // Each store buffer has 32,768 bytes, that of the old bytes 4,096.
    #[tactic(auto, unfolding(crate::specs::Admission::sizes_in))]
    fn are_in_range(self) -> bool
        ensures { result ≡ sizes_in self }
    {
        (self.files == BUFFER_BYTES)
            & (self.logs == BUFFER_BYTES)
            & (self.marks == BUFFER_BYTES)
            & (self.undo == UNDO_BYTES)
    }
}

// Fresh's sixteen file numbers are at most 7.
fn files_in(files: &[u8]) -> bool
    requires { length files.now ≡ descriptor_count }
    ensures { result ≡ below (λ d. leb (get_or files.now d 0) last_file) descriptor_count }
{
    files.iter().all(|file| usize::from(*file) <= LAST_FILE)
}

// The first write records of transaction t are in range, and their lengths add to bytes.
fn records_in(state: &State, t: usize, records: usize, bytes: usize) -> bool
    requires { (t < transaction_count) × (records ≤ record_count)
        × (below (λ d. standing_in (standing_at (transaction_of state.now t) d)) descriptor_count ≡ true) }
    ensures { result ≡
        journal_passes (transaction_of state.now t) (journal_of state.now)
        t records bytes }
{
    let mut sum = 0;
    for k in 0..records {
        if !ends_by(state, t, k, FILE_BYTES) {
            return false;
        }
        sum += usize::from(record_length(state, t, k));
    }
    sum == bytes
}

// The write records of transaction t are in range where it is open, once its counters and standings are.
#[tactic(auto, using(crate::proofs::Tests::tests))]
fn journal_in(state: &State, t: usize) -> bool
    requires { (t < transaction_count)
        × ((not (transaction_of state.now t).begun
        || (leb (transaction_of state.now t).used.records record_count
        && leb (transaction_of state.now t).used.bytes log_bytes)) ≡ true)
        × ((not (transaction_of state.now t).begun
        || below (λ d. standing_in (standing_at (transaction_of state.now t) d)) descriptor_count) ≡ true) }
    ensures { result ≡ (not (transaction_of state.now t).begun
        || journal_passes (transaction_of state.now t) (journal_of state.now) t
        (transaction_of state.now t).used.records
        (transaction_of state.now t).used.bytes) }
{
    if uses_at_most(state, t, 0, 0) {
        return true;
    }
    let used = used_at(state, t);
    let records = used.records;
    let bytes = usize::from(used.bytes);
    records_in(state, t, records, bytes)
}

// Those of all open transactions are.
fn journals_in(state: &State) -> bool
    requires { (below (λ t. not (transaction_of state.now t).begun
        || (leb (transaction_of state.now t).used.records record_count
        && leb (transaction_of state.now t).used.bytes log_bytes)) transaction_count ≡ true)
        × (below (λ t. not (transaction_of state.now t).begun
        || below (λ d. standing_in (standing_at (transaction_of state.now t) d)) descriptor_count)
        transaction_count ≡ true) }
    ensures { result ≡ below (λ t. not (transaction_of state.now t).begun
        || journal_passes (transaction_of state.now t) (journal_of state.now) t
        (transaction_of state.now t).used.records
        (transaction_of state.now t).used.bytes) transaction_count }
{
    for t in 0..TRANSACTIONS {
        if !journal_in(state, t) {
            return false;
        }
    }
    true
}

// The transactions are in range. Where none is open there is nothing to test; otherwise counters and
// standings of the eight at once, then the write records of those that have any.
fn transactions_in(state: &State) -> bool
    ensures { result ≡
        below (λ t. transaction_in (transaction_of state.now t) (journal_of state.now) t)
        transaction_count }
{
    if none_begun(state) {
        return true;
    }
    if !open_at_most(state, RECORDS as u16, FILE_END, FILE_END) {
        return false;
    }
    if all_use_at_most(state, 0, 0) {
        return true;
    }
    journals_in(state)
}

// Everything is in range but what is held of the last grant.
#[tactic(auto, using(crate::proofs::Tests::tests))]
fn tables_in(state: &State) -> bool
    ensures { result ≡ tables_in (store_of state.now) (journal_of state.now) }
{
    tables_at_most(state, LAST_FILE as u16, FILE_END, FILE_END, LAST_MINUTE)
        && transactions_in(state)
}

// A write of n bytes of the last grant is in range: it has a place.
#[tactic(auto, using(crate::proofs::Tests::tests))]
fn placed_in(place: Place, n: u16) -> bool
    ensures { result ≡ place_in Untouched place n }
{
    let end = usize::from(place.place_number()) + usize::from(n);
    match place {
        Place::At(_) => end <= FILE_BYTES,
        Place::After(_) => false,
    }
}

// The last grant's first write records are in range, and their lengths add to size.
fn grant_in(state: &State, records: usize, size: usize) -> bool
    requires { records ≤ record_count }
    ensures { result ≡ grant_passes (journal_of state.now) records size }
{
    let mut sum = 0;
    for k in 0..records {
        let w = record_at(state, LAST_GRANT, k);
        if usize::from(w.descriptor) > LAST_DESCRIPTOR {
            return false;
        }
        if !placed_in(w.place, w.length) {
            return false;
        }
        sum += usize::from(w.length);
    }
    sum == size
}

// What is held of the last grant is in range.
#[tactic(auto, using(crate::proofs::Tests::tests))]
fn undo_in(state: &State) -> bool
    ensures { result ≡ undo_in (store_of state.now).undo (journal_of state.now) }
{
    if !can_undo(state) {
        return true;
    }
    let used = undo_used(state);
    let records = used.records;
    let size = usize::from(used.bytes);
    if records > RECORDS {
        return false;
    }
    if size > LOG_BYTES {
        return false;
    }
    found_at_most(state, FILE_END) && grant_in(state, records, size)
}

// The state is in range.
#[tactic(auto, unfolding(crate::specs::Admission::store_in))]
fn store_in(state: &State) -> bool
    ensures { result ≡ store_in (store_of state.now) (journal_of state.now) }
{
    tables_in(state) && undo_in(state)
}

// Refusals 1 and 2, for every call but Fresh.
#[tactic(auto, using(crate::proofs::Laws::first), unfolding(crate::specs::Admission::gate_number))]
pub fn first_tests(state: &State, sizes: Sizes) -> Result<(), Refusal>
    ensures { gate_number result
        ≡ first_tests sizes
        (store_of state.now) (journal_of state.now) 0 }
{
    if !sizes.are_in_range() {
        return Err(Refusal::BufferLength);
    }
    if !store_in(state) {
        return Err(Refusal::RecordRange);
    }
    Ok(())
}

// Refusals 1 to 3, for calls of a transaction.
#[tactic(auto, using(crate::proofs::Laws::gates), unfolding(crate::specs::Admission::gate_number, crate::specs::Admission::shared, crate::specs::FirstRefusal::unless))]
pub fn admit(state: &State, sizes: Sizes, t: usize) -> Result<(), Refusal>
    ensures { gate_number result
        ≡ shared sizes
        (store_of state.now) (journal_of state.now) t 0 }
{
    first_tests(state, sizes)?;
    if t > LAST_TRANSACTION {
        return Err(Refusal::NoSuchTransaction);
    }
    Ok(())
}

// Refusals 1, 2, 6 and 22, for the setting of file f's window.
pub fn admit_window(
    state: &State,
    sizes: Sizes,
    f: usize,
    start: usize,
    end: usize,
) -> Result<(), Refusal>
    ensures { gate_number result
        ≡ admission_of_window sizes
        (store_of state.now) (journal_of state.now)
        f start end }
{
    first_tests(state, sizes)?;
    if f > LAST_FILE {
        return Err(Refusal::NoSuchTarget);
    }
    if !minute_in(start) || !minute_in(end) {
        return Err(Refusal::NoSuchMinute);
    }
    Ok(())
}

// No transaction is open. No branch: it goes over all of them.
#[tactic(auto, using(crate::proofs::Tests::tests))]
pub fn none_begun(state: &State) -> bool
    ensures { result ≡ none_begun (store_of state.now) }
{
    let mut none = true;
    for t in 0..TRANSACTIONS {
        none &= !is_begun(state, t);
    }
    none
}

// Refusals 1, 2, 23 and 24, for undoing the last grant.
#[tactic(auto, using(crate::proofs::Laws::gates), unfolding(crate::specs::Admission::gate_number, crate::specs::Admission::admission_of_undo, crate::specs::FirstRefusal::unless))]
pub fn admit_undo(state: &State, sizes: Sizes) -> Result<(), Refusal>
    ensures { gate_number result
        ≡ admission_of_undo sizes (store_of state.now)
        (journal_of state.now) }
{
    first_tests(state, sizes)?;
    if !none_begun(state) {
        return Err(Refusal::StillOpen);
    }
    if !can_undo(state) {
        return Err(Refusal::NoGrant);
    }
    Ok(())
}

// Refusals 1 and 14, for Fresh.
#[tactic(auto, unfolding(crate::specs::Admission::admission_of_fresh, crate::specs::Admission::gate_number, crate::specs::FirstRefusal::unless))]
pub fn admit_fresh(sizes: Sizes, numbers: &[u8]) -> Result<(), Refusal>
    ensures { gate_number result ≡ admission_of_fresh sizes numbers.now }
{
    if !sizes.are_in_range() {
        return Err(Refusal::BufferLength);
    }
    if numbers.len() != DESCRIPTORS {
        return Err(Refusal::BufferLength);
    }
    if !files_in(numbers) {
        return Err(Refusal::NoSuchFile);
    }
    Ok(())
}
