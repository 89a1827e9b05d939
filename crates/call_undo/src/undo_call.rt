// Undo of the last commit.
ghost use Rattle.std.specs.Prelude.{[]};
ghost use Rattle.spec.specs.Messages.{Call};
ghost use Rattle.spec.specs.Calls.{call};
ghost use Rattle.spec.specs.Promises.{Follows, lent_mut, lent_shared};

use crate::restore::restore_bytes;
use admission::Sizes;
use state::layout::{State, put_found, put_undo_valid};
use state::outcomes::{Answer, Outcome};

// Undoes the last grant: files, committed offsets and committed lengths are again as that grant found them,
// and there is no grant to undo. Journal, logs, marks, windows and the undo log stay. Refusals 1 and 2, then
// 23, then 24.
pub fn undo_commit(
    state: &mut State,
    files: &mut [u8],
    logs: &[u8],
    marks: &[u8],
    undo: &[u8],
) -> Outcome
    ensures { Follows (call Call.undo_commit) (lent_mut state.old state.new) (lent_mut files.old files.new) (lent_shared logs.now) (lent_shared marks.now) (lent_shared undo.now) result [] }
{
    admission::admit_undo(state, Sizes::of(files, logs, marks, undo))?;
    restore_bytes(state, files, undo);
    put_found(state);
    put_undo_valid(state, false);
    Ok(Answer::Done)
}
