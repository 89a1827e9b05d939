// Fresh.
ghost use Rattle.std.specs.Prelude.{[]};
ghost use Rattle.spec.specs.Calls.{fresh as fresh_rule};
ghost use Rattle.spec.specs.Promises.{Follows, lent_mut, lent_shared};

use admission::Sizes;
use state::layout::{State, clear, put_files};
use state::outcomes::{Answer, Outcome};

// Makes the store fresh: descriptor d belongs to file numbers[d], every file byte, mark, offset and length is
// 0, every window is 0 and 0 (always open), nothing is open, the journal is empty, and there is no grant to
// undo. Logs and the undo log are left as found. Refuses with 1, then with 14; the state then stays (R-1.6).
pub fn fresh(
    state: &mut State,
    files: &mut [u8],
    logs: &[u8],
    marks: &mut [u8],
    undo: &[u8],
    numbers: &[u8],
) -> Outcome
    ensures { Follows (fresh_rule numbers.now) (lent_mut state.old state.new) (lent_mut files.old files.new) (lent_shared logs.now) (lent_mut marks.old marks.new) (lent_shared undo.now) result [] }
{
    admission::admit_fresh(Sizes::of(files, logs, marks, undo), numbers)?;
    clear(state);
    put_files(state, numbers);
    files.fill(0);
    marks.fill(0);
    Ok(Answer::Done)
}
