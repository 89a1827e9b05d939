// Commit.
ghost use Rattle.std.specs.Prelude.{[]};
ghost use Rattle.spec.specs.Messages.{Call};
ghost use Rattle.spec.specs.Calls.{call};
ghost use Rattle.spec.specs.Promises.{Follows, lent_mut, lent_shared};

use crate::granting::grant;
use admission::Sizes;
use buffers::marks::unmark;
use commit_apply::offsets::places_fit;
use commit_windows::has_byte_for_closed;
use state::layout::{State, is_begun, is_stale, reset};
use state::outcomes::{Answer, Outcome, Refusal};
use windows::minute_in;

// Commits transaction t at a minute of the day: refusals 1 to 4, then 22, 13, 21 and 12, then the grant. A
// stale transaction ends as at Abort; one that is refused otherwise stays open (R-9.1 to R-9.4).
pub fn commit(
    state: &mut State,
    files: &mut [u8],
    logs: &[u8],
    marks: &mut [u8],
    undo: &mut [u8],
    t: usize,
    minute: usize,
) -> Outcome
    ensures { Follows (call (Call.commit t minute)) (lent_mut state.old state.new) (lent_mut files.old files.new) (lent_shared logs.now) (lent_mut marks.old marks.new) (lent_mut undo.old undo.new) result [] }
{
    admission::admit(state, Sizes::of(files, logs, marks, undo), t)?;
    if !is_begun(state, t) {
        return Err(Refusal::NotOpen);
    }
    if !minute_in(minute) {
        return Err(Refusal::NoSuchMinute);
    }
    if is_stale(state, t) {
        unmark(marks, t);
        reset(state, t, false);
        return Err(Refusal::Stale);
    }
    if has_byte_for_closed(state, t, minute as u16) {
        return Err(Refusal::FileClosed);
    }
    if !places_fit(state, t) {
        return Err(Refusal::AppendPastEnd);
    }
    // All of the logs, as a reference made anew: `logs` itself would be copied from memory.
    let octet = grant(state, files, &logs[0..], marks, undo, t);
    Ok(Answer::Granted(octet))
}
