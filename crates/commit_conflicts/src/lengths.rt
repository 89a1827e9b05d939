// Who has sighted a length that a commit would raise.
ghost use Rattle.std.specs.Prelude.{false, List, ◌≡◌, ℕ, ◌<◌, length};
ghost use Rattle.limits.specs.Limits.{file_count, buffer_bytes, transaction_count};
ghost use Rattle.buffers.specs.Bits.{bits_of};
ghost use Rattle.commit_apply.specs.Apply.{CanLandIn};
ghost use Rattle.commit_conflicts.specs.Conflicts.{Sighters, knows_length, lengths_set_in, NoneSighted};

use buffers::bit_sets;
use buffers::transaction_sets::{contains, joined, those};
use commit_apply::lengths::lengths_after;
use counters::Used;
use state::layout::{State, length_at, lengthmarks_at};
use state::{FILES, TRANSACTIONS};

// Those of the watched transactions that have sighted the length of file f.
fn sighted_by(state: &State, watched: u8, f: usize) -> u8
    requires { f < file_count }
    ensures { result ≡ bits_of (knows_length state.now watched f) transaction_count }
{
    those(|u| contains(watched, u) & bit_sets::has_bit(lengthmarks_at(state, u), f))
}

// A quick test: if it is false, no watched transaction has sighted a length.
fn any_sighted(state: &State, watched: u8) -> bool
    ensures { result ≡ false → NoneSighted state.now watched transaction_count }
{
    for u in 0..TRANSACTIONS {
        if contains(watched, u) & (lengthmarks_at(state, u) != 0) {
            return true;
        }
    }
    false
}

// Those of the watched transactions that have sighted a length that transaction t's writes would raise. Where
// none has sighted any, the lengths are not computed.
pub fn length_sighters(state: &State, t: usize, used: Used, watched: u8) -> u8
    requires { CanLandIn state.now t used.records }
    ensures { (files logs marks : List ℕ) → length logs ≡ buffer_bytes
        → Sighters state.now marks watched
        (lengths_set_in state.now files logs t used.records) result }
{
    if !any_sighted(state, watched) {
        return 0;
    }
    let after = lengths_after(state, t, used);
    let mut found = 0u8;
    for f in 0..FILES {
        if length_at(state, f) < after[f] {
            found = joined(found, sighted_by(state, watched, f));
        }
    }
    found
}
