// The call that lists the places a transaction would write (02, F-1; R-15.1).
ghost use Rattle.spec.specs.Messages.{Call};
ghost use Rattle.spec.specs.Calls.{call};
ghost use Rattle.spec.specs.Promises.{Follows, lent_shared};

use crate::ascending::{Pass, sweep_records};
use admission::Sizes;
use limits::LAST_FILE;
use read_lookup::Records;
use state::layout::{State, is_begun, used_at};
use state::outcomes::{Answer, Outcome, Refusal};

// Lists the intervals of file f that the writes of transaction t cover, as pairs at the front of out, and
// answers how many they are. Whether they fit is decided before a byte is written (R-15.2).
pub fn places(
    state: &State,
    files: &[u8],
    logs: &[u8],
    marks: &[u8],
    undo: &[u8],
    t: usize,
    f: usize,
    out: &mut [u8],
) -> Outcome
    ensures { Follows (call (Call.places t f out.old)) (lent_shared state.now) (lent_shared files.now) (lent_shared logs.now) (lent_shared marks.now) (lent_shared undo.now) result
        out.new }
{
    admission::admit(state, Sizes::of(files, logs, marks, undo), t)?;
    if !is_begun(state, t) {
        return Err(Refusal::NotOpen);
    }
    if LAST_FILE < f {
        return Err(Refusal::NoSuchTarget);
    }
    let records = Records {
        state,
        t,
        used: used_at(state, t),
    };
    let file = f as u16;
    let pass = Pass {
        records,
        file,
        met: sweep_records(&records, file),
    };
    if pass.is_waiting() {
        return Err(Refusal::NoPlaceYet);
    }
    let n = pass.count();
    if out.len() / 4 < n {
        return Err(Refusal::ListTooLong);
    }
    pass.write_intervals(out);
    Ok(Answer::Pairs(n as u16))
}
