// The grants of an order where a listed transaction stands Deferred or Moved without a write: Commit's
// placing is followed on the sixteen offsets. No store reached from Fresh has such a transaction.
ghost use Rattle.std.specs.Prelude.{true, ◌≡◌, ◌<◌};
ghost use Rattle.limits.specs.Limits.{transaction_count};
ghost use Rattle.state.specs.Layout.{store_of};
ghost use Rattle.call_order.specs.OrderStatements.{fits_at, offsets_after};
ghost use Rattle.call_order.specs.OrderTable.{descriptors_in, row, FollowedOne, grants_following};

use crate::best::OrderTable;
use crate::members::Members;
use buffers::transaction_sets::contains;
use limits::FILE_BYTES;
use state::DESCRIPTORS;
use state::layout::{State, descriptor_at, offset_at, standing_at};

// The octet of those made stale, the offsets, and the grants, after some Commits.
#[derive(Clone, Copy)]
struct Pass {
    stale: u8,
    offsets: [u16; DESCRIPTORS],
    grants: u8,
}

// The committed offsets.
fn offsets_of(state: &State) -> [u16; DESCRIPTORS]
    ensures { result ≡ (store_of state.now).offsets }
{
    let mut offsets = [0u16; DESCRIPTORS];
    for d in 0..DESCRIPTORS {
        offsets[d] = offset_at(state, d);
    }
    offsets
}

// Commit's placing of transaction t passes on these offsets. No branch: it goes over all of them.
#[tactic(auto, using(crate::proofs::ListLaws::tests), unfolding(crate::specs::OrderStatements::fits_at))]
fn fits(state: &State, t: usize, offsets: [u16; DESCRIPTORS]) -> bool
    requires { t < transaction_count }
    ensures { result ≡ fits_at (descriptors_in state.now t) offsets }
{
    let mut good = true;
    for d in 0..DESCRIPTORS {
        let standing = standing_at(state, t, d);
        good &= usize::from(offsets[d]) + usize::from(standing.advance()) <= FILE_BYTES;
    }
    good
}

// The offsets after a grant of transaction t.
fn offsets_after(state: &State, t: usize, offsets: [u16; DESCRIPTORS]) -> [u16; DESCRIPTORS]
    requires { (t < transaction_count) × (fits_at (descriptors_in state.now t) offsets ≡ true) }
    ensures { result ≡ offsets_after (descriptors_in state.now t) offsets }
{
    let mut after = offsets;
    for d in 0..DESCRIPTORS {
        let descriptor = descriptor_at(state, t, d);
        if descriptor.sets_offset() {
            after[d] = descriptor.standing.final_offset(offsets[d]);
        }
    }
    after
}

impl OrderTable {
    // One more Commit, of transaction t: granted or refused.
    #[tactic(auto, unfolding(crate::specs::OrderStatements::follow_one))]
    fn followed(&self, state: &State, t: usize, p: Pass) -> Pass
        requires { (t < transaction_count) × (p.grants < 255) }
        ensures { FollowedOne state.now (row self.now.table t) self.now.closed t p result }
    {
        let found = p.offsets;
        if contains(p.stale, t) || contains(self.closed, t) || !fits(state, t, found) {
            return p;
        }
        let offsets = offsets_after(state, t, found);
        Pass {
            stale: p.stale | self.table[t],
            offsets,
            grants: p.grants + 1,
        }
    }

    // The grants of the order, off the table of octets.
    #[tactic(auto, using(crate::proofs::PassLaws::following), unfolding(crate::specs::OrderTable::grants_following))]
    pub fn grants_following(&self, state: &State, order: Members) -> u8
        ensures { result ≡ grants_following state.now self.now.table self.now.closed order.entry.numbers.now }
    {
        let offsets = offsets_of(state);
        let mut p = Pass {
            stale: 0,
            offsets,
            grants: 0,
        };
        for member in order.numbers {
            let t = usize::from(*member);
            p = self.followed(state, t, p);
        }
        p.grants
    }
}
