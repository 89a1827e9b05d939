// The list of places where a file's write records come in ascending order, as loggers and editors write: each
// starts where the one before it ends, or later. One pass counts the intervals, a second writes the pairs.
ghost use Rattle.std.specs.Prelude.{true, ◌≡◌, length, suc, ◌+◌, ◌*◌, ◌<◌, ◌≤◌};
ghost use Rattle.limits.specs.Limits.{file_bytes, descriptor_count};
ghost use Rattle.state.specs.Layout.{store_of};
ghost use Rattle.spec.specs.Places.{with_pairs};
ghost use Rattle.read_lookup.specs.Lookup.{recorded_in};
ghost use Rattle.call_places.specs.PlacesCall.{intervals_in, waits_on_file};
ghost use Rattle.call_places.specs.Ascending.{unswept, swept_place, swept_record, swept_in};
ghost use Rattle.call_places.specs.Ascending.{WithinFile, with_last};

use crate::{PlaceInterval, count_intervals, put_pair, waiting, write_interval_list};
use read_lookup::Records;
use standings::Place;
use state::journal::WriteRecord;
use state::layout::{State, file_at};

// What a pass has met: whether the file's records ascend, each with a place; how many intervals they make;
// where the last interval starts; and the first place at which another could start, one past its end.
#[derive(Clone, Copy)]
pub struct Sweep {
    pub ascending: bool,
    pub intervals: usize,
    pub offset: usize,
    pub next: usize,
}

// The pass goes over n bytes at place p: they begin another interval, lengthen the last, or come too early.
fn sweep_place(s: Sweep, p: usize, n: usize) -> Sweep
    requires { (s.intervals < 65536) × (p < 65536) × (n < 65536) }
    ensures { result ≡ swept_place s p n }
{
    if s.next <= p {
        return Sweep {
            intervals: s.intervals + 1,
            offset: p,
            next: p + n + 1,
            ..s
        };
    }
    Sweep {
        ascending: s.ascending & (s.next == p + 1),
        next: p + n + 1,
        ..s
    }
}

// The pass goes over a write record. One of another file or of 0 bytes changes nothing; one without a place
// breaks the order.
fn sweep_record(state: &State, s: Sweep, w: WriteRecord, f: u16) -> Sweep
    requires { (w.descriptor < descriptor_count) × (s.intervals < 65536) }
    ensures { result ≡ swept_record (store_of state.now).filenumbers f s w }
{
    if file_at(state, usize::from(w.descriptor)) != f {
        return s;
    }
    let Place::At(p) = w.place else {
        return Sweep {
            ascending: false,
            ..s
        };
    };
    let n = usize::from(w.length);
    if n == 0 {
        return s;
    }
    sweep_place(s, usize::from(p), n)
}

// The pass before the first record.
fn unswept() -> Sweep
    ensures { result ≡ unswept }
{
    Sweep {
        ascending: true,
        intervals: 0,
        offset: 0,
        next: 0,
    }
}

// The pass over all write records of transaction t on file f.
pub fn sweep_records(records: &Records<'_>, f: u16) -> Sweep
    ensures { result ≡ swept_in (recorded_in records.now.state.now) records.now.t f records.now.used.records }
{
    // A copy: the loop then has the state and t in registers.
    let records = *records;
    let mut s = unswept();
    for k in 0..records.used.records {
        let w = records.get(k);
        s = sweep_record(records.state, s, w, f);
    }
    s
}

// Writes the pair of the last interval that a pass has met at its place in the list.
#[tactic(auto, using(crate::proofs::SweepLaws::last_none, crate::proofs::SweepLaws::last_some))]
fn put_last(out: &mut [u8], s: Sweep)
    requires intervals_in_bounds { (4 * s.intervals ≤ length out.old) × (s.next ≤ file_bytes + 1) }
    requires last { 1 ≤ s.next → (1 ≤ s.intervals) × (suc s.offset ≤ s.next) }
    ensures { out.new ≡ with_last s out.old }
{
    if s.next == 0 {
        return;
    }
    let last = PlaceInterval {
        offset: s.offset,
        length: s.next - 1 - s.offset,
    };
    put_pair(out, 4 * (s.intervals - 1), last);
}

// A pass over all write records of a transaction on a file, each of which ends within the file, with what it
// has met.
#[derive(Clone, Copy)]
pub struct Pass<'a> {
    pub records: Records<'a>,
    pub file: u16,
    pub met: Sweep,
    pub ghost within: { WithinFile (recorded_in records.state.now) records.t records.used.records },
    pub ghost swept: { met ≡ swept_in (recorded_in records.state.now) records.t file records.used.records },
}

impl<'a> Pass<'a> {
    // Writes the pairs of the list of records that ascend. After k records, the list of the first k is
    // written.
    fn write_ascending(&self, out: &mut [u8])
        requires ascend { self.now.met.ascending ≡ true }
        requires room { 4 * length (intervals_in self.now.records.state.now self.now.records.t self.now.records.used self.now.file) ≤ length out.old }
        ensures { out.new
            ≡ with_pairs (intervals_in self.now.records.state.now self.now.records.t self.now.records.used self.now.file) out.old }
    {
        // A copy: the loop then has the state and t in registers.
        let records = self.records;
        let mut s = unswept();
        for k in 0..records.used.records {
            let w = records.get(k);
            s = sweep_record(records.state, s, w, self.file);
            put_last(out, s);
        }
    }

    // A write of the transaction on the file has no place yet. Records that ascend all have one.
    pub fn is_waiting(&self) -> bool
        ensures { result ≡ waits_on_file (recorded_in self.now.records.state.now) self.now.records.t self.now.records.used.records self.now.file }
    {
        if self.met.ascending {
            return false;
        }
        waiting(&self.records, self.file)
    }

    // How many intervals the list has.
    pub fn count(&self) -> usize
        ensures { result ≡ length (intervals_in self.now.records.state.now self.now.records.t self.now.records.used self.now.file) }
    {
        if self.met.ascending {
            return self.met.intervals;
        }
        count_intervals(&self.records, self.file)
    }

    // Writes the pairs of the list to the front of the buffer.
    pub fn write_intervals(&self, out: &mut [u8])
        requires room { 4 * length (intervals_in self.now.records.state.now self.now.records.t self.now.records.used self.now.file) ≤ length out.old }
        ensures { out.new
            ≡ with_pairs (intervals_in self.now.records.state.now self.now.records.t self.now.records.used self.now.file) out.old }
    {
        if self.met.ascending {
            self.write_ascending(out);
            return;
        }
        write_interval_list(&self.records, self.file, out);
    }
}
