// Seek.
ghost use Rattle.std.specs.Prelude.{[]};
ghost use Rattle.spec.specs.Messages.{Op, Call};
ghost use Rattle.spec.specs.Calls.{call};
ghost use Rattle.spec.specs.Promises.{Follows, lent_mut, lent_shared};

use admission::Sizes;
use limits::{FILE_BYTES, LAST_DESCRIPTOR};
use state::Descriptor;
use state::layout::{State, is_begun, put_descriptor, standing_at};
use state::outcomes::{Answer, Outcome, Refusal};

// Sets the offset of descriptor d in transaction t to v, at most 4,096.
pub fn seek(
    state: &mut State,
    files: &[u8],
    logs: &[u8],
    marks: &[u8],
    undo: &[u8],
    t: usize,
    d: usize,
    v: usize,
) -> Outcome
    ensures { Follows (call (Call.on t (Op.seek d v))) (lent_mut state.old state.new) (lent_shared files.now) (lent_shared logs.now) (lent_shared marks.now) (lent_shared undo.now) result [] }
{
    admission::admit(state, Sizes::of(files, logs, marks, undo), t)?;
    if !is_begun(state, t) {
        return Err(Refusal::NotOpen);
    }
    if LAST_DESCRIPTOR < d {
        return Err(Refusal::NoSuchTarget);
    }
    if FILE_BYTES < v {
        return Err(Refusal::SeekPastEnd);
    }
    let standing = standing_at(state, t, d);
    let descriptor = Descriptor {
        standing: standing.after_seek(v as u16),
        dirty: true,
    };
    put_descriptor(state, t, d, descriptor);
    Ok(Answer::Done)
}
