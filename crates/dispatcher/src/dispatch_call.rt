// The dispatcher's call.
ghost use Rattle.spec.specs.Promises.{lent_mut};
ghost use Rattle.std.specs.Prelude.{◌≡◌};
ghost use Rattle.state.specs.Layout.{store_of, journal_of};
ghost use Rattle.admission.specs.Admission.{sized, admission_of_dispatch, gate_number};
ghost use Rattle.spec_dispatch.specs.Rounds.{scripts_in};
ghost use Rattle.dispatcher.specs.Types.{scripts_of};
ghost use Rattle.dispatcher.specs.Promise.{RunsScripts};

use crate::ends::{Dispatched, End, Ended};
use crate::rounds::run_rounds;
use crate::scripts::{SCRIPTS, Scripts, scripts_in};
use admission::{Sizes, first_tests, none_begun};
use state::layout::State;
use state::outcomes::{Answer, Outcome, Refusal};

// Refusals 1, 2, 19 and 20. The data buffer has n bytes.
fn admit(state: &State, sizes: Sizes, scripts: Scripts, n: usize) -> Result<(), Refusal>
    ensures { gate_number result
        ≡ admission_of_dispatch sizes
        (store_of state.now) (journal_of state.now) (scripts_in n (scripts_of scripts)) }
{
    first_tests(state, sizes)?;
    if !none_begun(state) {
        return Err(Refusal::NotAtRest);
    }
    if !scripts_in(scripts, n) {
        return Err(Refusal::ScriptRange);
    }
    Ok(())
}

// Runs the scripts, script k as transaction k, by rounds until each is over. A Write's bytes are a part of
// `bytes`, bytes read go to the front of `reader`, and every Commit is at that minute.
pub fn dispatch(
    state: &mut State,
    files: &mut [u8],
    logs: &mut [u8],
    marks: &mut [u8],
    undo: &mut [u8],
    scripts: Scripts,
    bytes: &[u8],
    reader: &mut [u8],
    minute: usize,
) -> Dispatched
    ensures { RunsScripts bytes.now minute (scripts_of scripts) (lent_mut state.old state.new) (lent_mut files.old files.new) (lent_mut logs.old logs.new) (lent_mut marks.old marks.new) (lent_mut undo.old undo.new) result (lent_mut reader.old reader.new) }
{
    let g = admit(
        state,
        Sizes::of(files, logs, marks, undo),
        scripts,
        bytes.len(),
    );
    if let Err(r) = g {
        let e = Ended {
            end: End::Unfinished,
        };
        return Dispatched {
            outcome: Err(r),
            ends: [e; SCRIPTS],
            commits: 0,
        };
    }
    let p = run_rounds(
        state, files, logs, marks, undo, scripts, bytes, reader, minute,
    );
    let ends = p.ends;
    Dispatched {
        outcome: Ok(Answer::Done),
        ends,
        commits: p.commits,
    }
}
