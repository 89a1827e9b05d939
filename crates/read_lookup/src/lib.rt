// The latest write over a place of a file, and the run from the place on: the longest interval that one write
// record supplies, or that the file supplies. Also where a file ends for a transaction.
#![tactic(auto)]

ghost use Rattle.std.specs.Prelude.{◌≡◌, ◌<◌, ◌≤◌, max, get_or};
ghost use Rattle.limits.specs.Limits.{file_count, descriptor_count};
ghost use Rattle.state.specs.Journal.{write_record_at};
ghost use Rattle.state.specs.Layout.{store_of, journal_of};
ghost use Rattle.read_lookup.specs.Lookup.{recorded_in, record_end, own_reach, CountedRecords};
ghost use Rattle.read_lookup.specs.Lookup.{GapOf, LatestAt, RunOf};

use counters::Used;
use standings::Place;
use state::journal::{WriteRecord, record_at};
use state::layout::{State, file_at, length_at};

// Places of a file: `length` of them, from `place` on.
#[derive(Clone, Copy)]
pub struct Extent {
    pub file: u16,
    pub place: usize,
    pub length: usize,
}

// A run: the write record that supplies it, or none where the file does; how many write records the walk
// visited to find that; where its bytes start in the log or in the file, and how many they are.
#[derive(Clone, Copy)]
pub struct Run {
    pub supplier: Option<usize>,
    pub looked: usize,
    pub at: usize,
    pub length: usize,
}

// How many of the places come before the first that the write record covers.
fn gap(state: &State, w: WriteRecord, e: Extent) -> usize
    requires { w.descriptor < descriptor_count }
    ensures { GapOf (store_of state.now).filenumbers w e result }
{
    let Place::At(p) = w.place else {
        return e.length;
    };
    if file_at(state, usize::from(w.descriptor)) != e.file {
        return e.length;
    }
    let start = usize::from(p);
    let end = start + usize::from(w.length);
    if end <= e.place {
        return e.length;
    }
    if start <= e.place {
        return 0;
    }
    if start == end {
        return e.length;
    }
    e.length.min(start - e.place)
}

// Where the write record ends in the file; 0 where it has no place, no byte, or another file.
fn end_in(state: &State, w: WriteRecord, file: u16) -> usize
    requires { w.descriptor < descriptor_count }
    ensures { result ≡ record_end (store_of state.now).filenumbers file w }
{
    let Place::At(p) = w.place else {
        return 0;
    };
    if file_at(state, usize::from(w.descriptor)) != file {
        return 0;
    }
    let size = usize::from(w.length);
    if size == 0 {
        return 0;
    }
    usize::from(p) + size
}

// The write records of transaction t in a state, as many as its counters say.
#[derive(Clone, Copy)]
pub struct Records<'a> {
    pub state: &'a State,
    pub t: usize,
    pub used: Used,
    pub ghost counted: { CountedRecords (journal_of state.now) t used },
}

impl<'a> Records<'a> {
    // Write record k.
    pub fn get(&self, k: usize) -> WriteRecord
        requires { k < self.now.used.records }
        ensures { result ≡ write_record_at (journal_of self.now.state.now) self.now.t k }
    {
        record_at(self.state, self.t, k)
    }

    // The latest write over the first of the places, and the longest run at their front. Corollary 2 of the
    // notes: "Otherwise, a sees the most recent precedessor in OP_{T_i} ." [R-6.6] The walk goes from the
    // newest record back and stops at the first that covers the place. On its way it tracks where the data
    // of the visited records start in the log, and how many places come before those that they cover.
    pub fn latest_write(&self, e: Extent) -> Run
        requires { 1 ≤ e.length }
        ensures latest { LatestAt (recorded_in self.now.state.now) self.now.t self.now.used.records e result }
        ensures run { RunOf (recorded_in self.now.state.now) self.now.t self.now.used.records e result }
    {
        // A copy: the loop then has the state and t in registers.
        let own = *self;
        let mut start = usize::from(own.used.bytes);
        let mut length = e.length;
        for k in (0..own.used.records).rev() {
            let w = own.get(k);
            let size = usize::from(w.length);
            start -= size;
            let g = gap(own.state, w, Extent { length, ..e });
            if g == 0 {
                let looked = own.used.records - k;
                let p = usize::from(w.place.place_number());
                return Run {
                    supplier: Some(k),
                    looked,
                    at: start + (e.place - p),
                    length: length.min(p + size - e.place),
                };
            }
            length = g;
        }
        Run {
            supplier: None,
            looked: own.used.records,
            at: e.place,
            length,
        }
    }

    // The largest of the ends of the transaction's own placed writes of at least one byte in the file; 0
    // where it has none there.
    pub fn own_end(&self, file: u16) -> usize
        ensures { result ≡ own_reach self.now.state.now self.now.t self.now.used.records file }
    {
        // A copy: the loop then has the state and t in registers.
        let own = *self;
        let mut end = 0;
        for k in 0..own.used.records {
            let w = own.get(k);
            end = end.max(end_in(own.state, w, file));
        }
        end
    }
}

// "A transaction's length is the largest of the committed one and the ends of its own placed writes of at
// least one byte." [R-6.1] The largest of these ends is given.
pub fn length_for(state: &State, file: u16, own: usize) -> usize
    requires { file < file_count }
    ensures { result ≡ max (get_or (store_of state.now).lengths file 0) own }
{
    usize::from(length_at(state, usize::from(file))).max(own)
}
