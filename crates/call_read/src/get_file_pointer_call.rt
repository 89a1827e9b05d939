// GetFilePointer.
ghost use Rattle.std.specs.Prelude.{[]};
ghost use Rattle.spec.specs.Messages.{Op, Call};
ghost use Rattle.spec.specs.Calls.{call};
ghost use Rattle.spec.specs.Promises.{Follows, lent_mut, lent_shared};

use crate::read_tests::admit_read;
use admission::Sizes;
use read_settle::settle_for_pointer;
use state::layout::{State, is_begun, is_stale, standing_at};
use state::outcomes::{Answer, Outcome, Refusal};

// Answers the offset of descriptor d in transaction t, and settles d where its place is unknown.
pub fn get_file_pointer(
    state: &mut State,
    files: &[u8],
    logs: &[u8],
    marks: &[u8],
    undo: &[u8],
    t: usize,
    d: usize,
) -> Outcome
    ensures { Follows (call (Call.on t (Op.get_file_pointer d))) (lent_mut state.old state.new) (lent_shared files.now) (lent_shared logs.now) (lent_shared marks.now) (lent_shared undo.now) result [] }
{
    admission::admit(state, Sizes::of(files, logs, marks, undo), t)?;
    if !is_begun(state, t) {
        return Err(Refusal::NotOpen);
    }
    admit_read(is_stale(state, t), d, 0, 0)?;
    let Ok(()) = settle_for_pointer(state, t, d) else {
        return Err(Refusal::AppendPastEnd);
    };
    let standing = standing_at(state, t, d);
    Ok(Answer::Offset(standing.offset()))
}
