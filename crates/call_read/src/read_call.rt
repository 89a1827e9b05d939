// Read.
ghost use Rattle.std.specs.Prelude.{◌≡◌, ◌-◌, min};
ghost use Rattle.read_lookup.specs.Lookup.{extent};
ghost use Rattle.spec.specs.Messages.{Op, Call};
ghost use Rattle.spec.specs.Calls.{call};
ghost use Rattle.spec.specs.Promises.{Follows, lent_mut, lent_shared};
ghost use Rattle.call_read.specs.ReadCall.{Movable, MovedOn, Readable, GivesRead};

use crate::read_tests::admit_read;
use admission::Sizes;
use buffers::bit_sets;
use read_fetch::copy_bytes;
use read_lookup::{Extent, Records, length_for};
use read_settle::settle_for_read;
use state::Descriptor;
use state::layout::{
    State, file_at, is_begun, is_stale, lengthmarks_at, put_descriptor, put_lengthmarks,
    standing_at, used_at,
};
use state::outcomes::{Answer, Outcome, Refusal};

// A Read of n bytes gives the smaller of n and the transaction's length less the offset: these places, from
// `place` on, where the file ends at `end`.
fn places_given(file: u16, place: usize, n: usize, end: usize) -> Extent
    ensures { result ≡ extent file place (min n (end - place)) }
{
    Extent {
        file,
        place,
        length: n.min(end.saturating_sub(place)),
    }
}

// A Read of n bytes through descriptor d of transaction t gives these places: d moves on and is dirty. "A
// Read that gave fewer bytes than wanted sights the length".
fn put_read(state: &mut State, t: usize, d: usize, extent: Extent, n: usize)
    requires { Movable state.old t d extent }
    ensures { MovedOn t d n extent state.old state.new }
{
    let z = standing_at(state, t, d);
    let standing = z.after_read(extent.length as u16);
    put_descriptor(
        state,
        t,
        d,
        Descriptor {
            standing,
            dirty: true,
        },
    );
    if extent.length < n {
        let sighted = lengthmarks_at(state, t);
        put_lengthmarks(state, t, bit_sets::added(sighted, usize::from(extent.file)));
    }
}

// Reads through descriptor d of transaction t, whose place is known, and answers how many bytes it gave.
fn read_settled<'a>(
    state: &mut State,
    files: &'a [u8],
    logs: &'a [u8],
    marks: &mut [u8],
    t: usize,
    d: usize,
    n: usize,
    reader: &mut [u8],
) -> u16
    requires { Readable state.old files.now logs.now marks.old t d n reader.old }
    ensures { GivesRead (lent_mut state.old state.new) (lent_shared files.now) (lent_shared logs.now) (lent_mut marks.old marks.new) t d n (lent_mut reader.old reader.new) result }
{
    let used = used_at(state, t);
    let z = standing_at(state, t, d);
    let place = usize::from(z.offset());
    let file = file_at(state, d);
    let records = Records { state, t, used };
    let own = records.own_end(file);
    let end = length_for(state, file, own);
    let extent = places_given(file, place, n, end);
    copy_bytes(&records, files, logs, marks, extent, own, reader);
    put_read(state, t, d, extent, n);
    extent.length as u16
}

// Reads up to n bytes through descriptor d of transaction t to the front of the reader's buffer; own writes
// come before the file's bytes. Settles the descriptors of the file whose place is unknown, and marks the
// bytes that the file supplied; sights the length where it gives fewer bytes than wanted.
pub fn read<'a>(
    state: &mut State,
    files: &'a [u8],
    logs: &'a [u8],
    marks: &mut [u8],
    undo: &[u8],
    t: usize,
    d: usize,
    n: usize,
    reader: &mut [u8],
) -> Outcome
    ensures { Follows (call (Call.on t (Op.read d n reader.old)))
        (lent_mut state.old state.new) (lent_shared files.now) (lent_shared logs.now) (lent_mut marks.old marks.new) (lent_shared undo.now) result reader.new }
{
    admission::admit(state, Sizes::of(files, logs, marks, undo), t)?;
    if !is_begun(state, t) {
        return Err(Refusal::NotOpen);
    }
    admit_read(is_stale(state, t), d, n, reader.len())?;
    let Ok(()) = settle_for_read(state, t, d) else {
        return Err(Refusal::AppendPastEnd);
    };
    Ok(Answer::Given(read_settled(state, files, logs, marks, t, d, n, reader)))
}
