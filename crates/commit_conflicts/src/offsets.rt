// Who has sighted an offset that a commit would set.
ghost use Rattle.std.specs.Prelude.{List, ◌≡◌, ℕ, ◌<◌};
ghost use Rattle.limits.specs.Limits.{descriptor_count, transaction_count};
ghost use Rattle.buffers.specs.Bits.{bits_of};
ghost use Rattle.spec.specs.Items.{Values};
ghost use Rattle.commit_conflicts.specs.Conflicts.{Sighters, knows_offset, offsets_set_in};

use buffers::transaction_sets::{contains, joined, those};
use state::DESCRIPTORS;
use state::dirty::sets_offset_at;
use state::layout::State;
use state::readers::{any_dirty, is_known_at};

// Those of the watched transactions that have settled the offset of descriptor d: it stands Known there.
fn settled_by(state: &State, watched: u8, d: usize) -> u8
    requires { d < descriptor_count }
    ensures { result ≡ bits_of (knows_offset state.now watched d) transaction_count }
{
    those(|u| contains(watched, u) & is_known_at(state, u, d))
}

// Those of the watched transactions that have settled an offset that a commit of transaction t would set.
// Where nothing is dirty, it sets none.
pub fn offset_sighters(state: &State, t: usize, watched: u8) -> u8
    requires { t < transaction_count }
    ensures { (marks : List ℕ) (v : Values)
        → Sighters state.now marks watched (offsets_set_in state.now v t) result }
{
    if !any_dirty(state, t) {
        return 0;
    }
    let mut found = 0u8;
    for d in 0..DESCRIPTORS {
        if sets_offset_at(state, t, d) {
            found = joined(found, settled_by(state, watched, d));
        }
    }
    found
}
