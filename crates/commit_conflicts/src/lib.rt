// Whom a commit would make stale: those who have sighted one of the bytes (`bytes`), the offsets (`offsets`)
// or the lengths (`lengths`) that it would set.
#![tactic(auto)]

mod bytes;
mod lengths;
mod offsets;

ghost use Rattle.std.specs.Prelude.{List, ◌≡◌, ℕ, length};
ghost use Rattle.limits.specs.Limits.{buffer_bytes, transaction_count};
ghost use Rattle.buffers.specs.Bits.{bits_of};
ghost use Rattle.state.specs.Layout.{transaction_of};
ghost use Rattle.spec.specs.Promises.{machine_of};
ghost use Rattle.commit_apply.specs.Apply.{CanLandIn};
ghost use Rattle.commit_conflicts.specs.Conflicts.{is_watched, stale_by};

use buffers::transaction_sets::{joined, those};
use bytes::byte_sighters;
use lengths::length_sighters;
use offsets::offset_sighters;
use state::layout::{State, is_begun, is_stale, used_at};

// The transactions that a commit of t can make stale: every other one that is open and not stale (R-8.1).
fn watched(state: &State, t: usize) -> u8
    ensures { result ≡ bits_of (is_watched state.now t) transaction_count }
{
    those(|u| (u != t) & is_begun(state, u) & !is_stale(state, u))
}

// The transactions that a commit of t would make stale, granted or not, as a bit set. No byte of files, logs
// or undo log has a part in it.
pub fn stale_by<'a>(state: &'a State, marks: &'a [u8], t: usize) -> u8
    requires { CanLandIn state.now t (transaction_of state.now t).used.records
        × (length marks.now ≡ buffer_bytes) }
    ensures { (files logs undo : List ℕ) → length logs ≡ buffer_bytes
        → result ≡ stale_by (machine_of state.now files logs marks.now undo) t }
{
    let watched = watched(state, t);
    if watched == 0 {
        return 0;
    }
    let used = used_at(state, t);
    let bytes = byte_sighters(state, marks, t, used, watched);
    let offsets = offset_sighters(state, t, watched);
    let lengths = length_sighters(state, t, used, watched);
    joined(bytes, joined(offsets, lengths))
}
