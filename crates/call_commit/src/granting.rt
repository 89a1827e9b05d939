// A commit that is granted.
ghost use Rattle.std.specs.Prelude.{[]};
ghost use Rattle.state.specs.Layout.{transaction_of};
ghost use Rattle.state.specs.declared.outcomes.Answer.TheVariants.{Granted};
ghost use Rattle.spec.specs.Promises.{Follows, lent_mut, lent_shared};
ghost use Rattle.commit_apply.specs.Apply.{Becomes};
ghost use Rattle.call_commit.specs.Grant.{CanGrant, grant_turn, with_stale_in};

use buffers::marks::unmark;
use buffers::transaction_sets::contains;
use commit_apply::lengths::{lengths_after, put_lengths};
use commit_apply::offsets::set_offsets;
use commit_apply::save_undo::save_undo;
use commit_apply::writes::land_writes;
use commit_conflicts::stale_by;
use state::TRANSACTIONS;
use state::layout::{State, put_stale, reset, used_at};

// Makes the transactions of the octet stale.
fn put_stale_in(state: &mut State, octet: u8)
    ensures { Becomes (lent_mut state.old state.new) (with_stale_in octet) }
{
    for u in 0..TRANSACTIONS {
        if contains(octet, u) {
            put_stale(state, u);
        }
    }
}

// Grants the commit of transaction t: lands its writes in call order, saves the undo log (the
// bytes that they overwrite, and the offsets and lengths before), raises lengths, sets its offsets and ends
// it. Every other open transaction that has sighted a byte, offset or length just set is stale from then on;
// the answer is the octet of those that were not so before (R-8.1, R-9.5 to R-9.9).
pub fn grant(
    state: &mut State,
    files: &mut [u8],
    logs: &[u8],
    marks: &mut [u8],
    undo: &mut [u8],
    t: usize,
) -> u8
    requires { CanGrant state.old files.old logs.now marks.old undo.old t
        (transaction_of state.old t) }
    ensures { Follows (grant_turn t) (lent_mut state.old state.new) (lent_mut files.old files.new) (lent_shared logs.now) (lent_mut marks.old marks.new) (lent_mut undo.old undo.new) (Ok (Granted result)) [] }
{
    let octet = stale_by(state, marks, t);
    let used = used_at(state, t);
    land_writes(state, files, logs, undo, t, used);
    let lengths = lengths_after(state, t, used);
    save_undo(state, t, used);
    put_lengths(state, lengths);
    set_offsets(state, t);
    unmark(marks, t);
    reset(state, t, false);
    put_stale_in(state, octet);
    octet
}
