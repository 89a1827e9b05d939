// Abort.
ghost use Rattle.std.specs.Prelude.{[]};
ghost use Rattle.spec.specs.Messages.{Call};
ghost use Rattle.spec.specs.Calls.{call};
ghost use Rattle.spec.specs.Promises.{Follows, lent_mut, lent_shared};

use admission::Sizes;
use buffers::marks::unmark;
use state::layout::{State, is_begun, reset};
use state::outcomes::{Answer, Outcome, Refusal};

// Ends transaction t and drops its log and marks; the log bytes stay (R-10.1).
pub fn abort(
    state: &mut State,
    files: &[u8],
    logs: &[u8],
    marks: &mut [u8],
    undo: &[u8],
    t: usize,
) -> Outcome
    ensures { Follows (call (Call.abort t)) (lent_mut state.old state.new) (lent_shared files.now) (lent_shared logs.now) (lent_mut marks.old marks.new) (lent_shared undo.now) result [] }
{
    admission::admit(state, Sizes::of(files, logs, marks, undo), t)?;
    if !is_begun(state, t) {
        return Err(Refusal::NotOpen);
    }
    unmark(marks, t);
    reset(state, t, false);
    Ok(Answer::Done)
}
