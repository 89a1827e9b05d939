// The places of a file that a transaction's write records cover, as a list of intervals; and whether one of
// its records on the file has no place yet. Where the records do not ascend (ascending.rt), each interval is
// found by walks over them, and no table of places is made.
#![tactic(auto)]

mod ascending;
mod places_call;

ghost use Rattle.std.specs.Prelude.{true, false, ◌++◌, ◌≡◌, length, ◌+◌, ◌*◌, ◌<◌, ◌≤◌};
ghost use Rattle.limits.specs.Limits.{file_bytes, descriptor_count};
ghost use Rattle.buffers.specs.Parts.{pasted};
ghost use Rattle.state.specs.Layout.{store_of};
ghost use Rattle.spec.specs.Places.{sixteen, with_pairs};
ghost use Rattle.read_lookup.specs.Lookup.{recorded_in};
ghost use Rattle.call_places.specs.PlacesCall.{covered_at, intervals_in, waits_on, waits_on_file, Upto};
ghost use Rattle.call_places.specs.PlacesCall.{NextOf};

use limits::FILE_BYTES;
pub use places_call::places;
use read_lookup::{Extent, Records};
use standings::Place;
use state::journal::WriteRecord;
use state::layout::{State, file_at};

// Places of a file: `length` of them, from `offset` on.
#[derive(Clone, Copy)]
pub struct PlaceInterval {
    pub offset: usize,
    pub length: usize,
}

// The write record is one of file f and has no place yet.
fn waits(state: &State, w: WriteRecord, f: u16) -> bool
    requires { w.descriptor < descriptor_count }
    ensures { result ≡ waits_on (store_of state.now).filenumbers f w }
{
    if file_at(state, usize::from(w.descriptor)) != f {
        return false;
    }
    matches!(w.place, Place::After(_))
}

// A write of transaction t on file f has no place yet.
#[tactic(auto, using(crate::proofs::CoverLaws::so_far), unfolding(crate::specs::PlacesCall::waits_on_file))]
fn waiting(records: &Records<'_>, f: u16) -> bool
    ensures { result ≡ waits_on_file (recorded_in records.now.state.now) records.now.t records.now.used.records f }
{
    // A copy: the loop then has the state and t in registers.
    let records = *records;
    for k in 0..records.used.records {
        let w = records.get(k);
        if waits(records.state, w, f) {
            return true;
        }
    }
    false
}

// The first place from p on that is covered, or the end of the file.
fn first_covered(records: &Records<'_>, f: u16, p: usize) -> usize
    requires { p ≤ file_bytes }
    ensures { Upto (covered_at (recorded_in records.now.state.now) records.now.t records.now.used.records f) false p result }
{
    if p == FILE_BYTES {
        return p;
    }
    let e = Extent {
        file: f,
        place: p,
        length: FILE_BYTES - p,
    };
    let r = records.latest_write(e);
    if r.supplier.is_some() {
        return p;
    }
    p + r.length
}

// The first place from p on that is not covered, or the end of the file: run after run, whichever record
// supplies it.
fn first_clear(records: &Records<'_>, f: u16, p: usize) -> usize
    requires { p ≤ file_bytes }
    ensures { Upto (covered_at (recorded_in records.now.state.now) records.now.t records.now.used.records f) true p result }
{
    let mut q = p;
    // A while: the step is the length of the run.
    while q < FILE_BYTES {
        let e = Extent {
            file: f,
            place: q,
            length: FILE_BYTES - q,
        };
        let r = records.latest_write(e);
        if r.supplier.is_none() {
            return q;
        }
        q += r.length;
    }
    q
}

// The first interval of covered places from p on; one of length 0 where there is none.
fn next_interval(records: &Records<'_>, f: u16, p: usize) -> PlaceInterval
    requires { p ≤ file_bytes }
    ensures { NextOf (covered_at (recorded_in records.now.state.now) records.now.t records.now.used.records f) p result }
{
    let offset = first_covered(records, f, p);
    let end = first_clear(records, f, offset);
    PlaceInterval {
        offset,
        length: end - offset,
    }
}

// How many intervals the list has.
fn count_intervals(records: &Records<'_>, f: u16) -> usize
    ensures { result ≡ length (intervals_in records.now.state.now records.now.t records.now.used f) }
{
    let mut p = 0;
    let mut n = 0;
    // A while: the next turn begins where the interval ends.
    while p < FILE_BYTES {
        let s = next_interval(records, f, p);
        if s.length == 0 {
            return n;
        }
        n += 1;
        p = s.offset + s.length;
    }
    n
}

// A number of 16 bits, high byte first.
#[tactic(auto, using(crate::proofs::ListLaws::number_put))]
fn put_number(out: &mut [u8], at: usize, n: usize)
    requires { (at + 2 ≤ length out.old) × (n < 65536) }
    ensures { out.new ≡ pasted out.old at (sixteen n) }
{
    out[at] = (n / 256) as u8;
    out[at + 1] = (n % 256) as u8;
}

// An interval as the pair of its offset and its length.
#[tactic(auto, using(crate::proofs::ListLaws::pair_put))]
fn put_pair(out: &mut [u8], at: usize, s: PlaceInterval)
    requires { (at + 4 ≤ length out.old) × (s.offset < 65536) × (s.length < 65536) }
    ensures { out.new
        ≡ pasted out.old at (sixteen s.offset ++ sixteen s.length) }
{
    put_number(out, at, s.offset);
    put_number(out, at + 2, s.length);
}

// Writes the pairs of the list to the front of the buffer.
fn write_interval_list(records: &Records<'_>, f: u16, out: &mut [u8])
    requires room { 4 * length (intervals_in records.now.state.now records.now.t records.now.used f) ≤ length out.old }
    ensures { out.new
        ≡ with_pairs (intervals_in records.now.state.now records.now.t records.now.used f) out.old }
{
    let mut p = 0;
    let mut at = 0;
    // A while: the next turn begins where the interval ends.
    while p < FILE_BYTES {
        let s = next_interval(records, f, p);
        if s.length == 0 {
            return;
        }
        put_pair(out, at, s);
        at += 4;
        p = s.offset + s.length;
    }
}
