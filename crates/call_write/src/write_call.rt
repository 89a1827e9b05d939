// Write.
ghost use Rattle.std.specs.Prelude.{true, [], ◌≡◌, ◌<◌, ◌≤◌};
ghost use Rattle.limits.specs.Limits.{file_bytes, descriptor_count, transaction_count, log_bytes};
ghost use Rattle.standings.specs.Table.{place_number, write_place};
ghost use Rattle.state.specs.Layout.{store_of, journal_of};
ghost use Rattle.admission.specs.Admission.{standing_in, gate_number};
ghost use Rattle.spec.specs.Messages.{Op, Call};
ghost use Rattle.spec.specs.Calls.{call};
ghost use Rattle.spec.specs.Promises.{Follows, lent_mut, lent_shared};
ghost use Rattle.call_write.specs.Writes.{write_refusal, WriteRoom, store_written, journal_written};

use admission::Sizes;
use buffers::parts;
use counters::Used;
use limits::{FILE_BYTES, LAST_DESCRIPTOR, LOG_BYTES};
use standings::{Place, Standing};
use state::Descriptor;
use state::journal::{RECORDS, WriteRecord, put_record};
use state::layout::{State, is_begun, put_descriptor, put_used, standing_at, used_at};
use state::outcomes::{Answer, Outcome, Refusal};

// Refusals 9 to 11 of a write of n bytes: past the end of its file, as 65th record, or past the end of its
// log.
fn room(place: Place, used: Used, n: usize) -> Result<(), Refusal>
    requires { (place_number place ≤ file_bytes) × (used.bytes ≤ log_bytes) }
    ensures { gate_number result ≡ write_refusal place used n }
{
    if FILE_BYTES - usize::from(place.place_number()) < n {
        return Err(Refusal::WritePastEnd);
    }
    if RECORDS <= used.records {
        return Err(Refusal::RecordsFull);
    }
    if LOG_BYTES - usize::from(used.bytes) < n {
        return Err(Refusal::LogFull);
    }
    Ok(())
}

// Puts a write of n bytes through descriptor d, which stood at z, into the record: its write record, the
// counters, d.
fn put_write(state: &mut State, t: usize, d: usize, standing: Standing, u: Used, n: u16)
    requires in_range { (t < transaction_count) × (d < descriptor_count) }
    requires write_room { WriteRoom (write_place standing) u n × (standing_in standing ≡ true) }
    ensures state_after { store_of state.new
        ≡ store_written t d standing u n (store_of state.old) }
    ensures journal_after { journal_of state.new
        ≡ journal_written t d standing u n (journal_of state.old) }
{
    let w = WriteRecord {
        descriptor: d as u16,
        place: standing.write_place(),
        length: n,
    };
    put_record(state, t, u.records, w);
    put_used(state, t, counters::appended(u, n));
    let descriptor = Descriptor {
        standing: standing.after_write(n),
        dirty: true,
    };
    put_descriptor(state, t, d, descriptor);
}

// Writes bytes through descriptor d of transaction t into its log. A write whose place is unknown lies after
// the advance before it.
pub fn write(
    state: &mut State,
    files: &[u8],
    logs: &mut [u8],
    marks: &[u8],
    undo: &[u8],
    t: usize,
    d: usize,
    bytes: &[u8],
) -> Outcome
    ensures { Follows (call (Call.on t (Op.write d bytes.now)))
        (lent_mut state.old state.new) (lent_shared files.now) (lent_mut logs.old logs.new) (lent_shared marks.now) (lent_shared undo.now) result [] }
{
    admission::admit(state, Sizes::of(files, logs, marks, undo), t)?;
    if !is_begun(state, t) {
        return Err(Refusal::NotOpen);
    }
    if LAST_DESCRIPTOR < d {
        return Err(Refusal::NoSuchTarget);
    }
    let standing = standing_at(state, t, d);
    let used = used_at(state, t);
    room(standing.write_place(), used, bytes.len())?;
    parts::copy_to(logs, LOG_BYTES * t + usize::from(used.bytes), bytes);
    put_write(state, t, d, standing, used, bytes.len() as u16);
    Ok(Answer::Done)
}
