// The call that sets the window of a file, the minutes of the day in which it may change (02, F-11; R-11.2).
#![tactic(auto)]

ghost use Rattle.std.specs.Prelude.{[]};
ghost use Rattle.spec.specs.Messages.{Call};
ghost use Rattle.spec.specs.Calls.{call};
ghost use Rattle.spec.specs.Promises.{Follows, lent_mut, lent_shared};

use admission::Sizes;
use state::layout::{State, put_window};
use state::outcomes::{Answer, Outcome};
use windows::Window;

// Sets the window of file f: from minute start on, before minute end. Refusals 1 and 2, then 6, then 22. It
// may be set while transactions are open, and counts for every Commit from then on.
pub fn set_window(
    state: &mut State,
    files: &[u8],
    logs: &[u8],
    marks: &[u8],
    undo: &[u8],
    f: usize,
    start: usize,
    end: usize,
) -> Outcome
    ensures { Follows (call (Call.set_window f start end)) (lent_mut state.old state.new) (lent_shared files.now) (lent_shared logs.now) (lent_shared marks.now) (lent_shared undo.now) result [] }
{
    admission::admit_window(state, Sizes::of(files, logs, marks, undo), f, start, end)?;
    let w = Window {
        start: start as u16,
        end: end as u16,
    };
    put_window(state, f, w);
    Ok(Answer::Done)
}
