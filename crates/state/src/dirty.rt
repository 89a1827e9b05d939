// What Commit asks of one transaction's descriptors, on their numbers: no standing is made for it.
#![tactic(auto, using(crate::proofs::ReaderLaws::touched_decides), unfolding(crate::specs::Layout::descriptor_of))]

ghost use Rattle.std.specs.Prelude.{◌&&◌, ◌≡◌, ◌<◌};
ghost use Rattle.limits.specs.Limits.{descriptor_count, transaction_count};
ghost use Rattle.standings.specs.Table.{is_touched};
ghost use Rattle.state.specs.Layout.{descriptor_of};

use crate::layout::State;
use crate::positions::{DIRTY_AT, first_at, second_at};
use buffers::bit_sets;

// A commit of transaction t sets the offset of descriptor d: it is dirty there, and not Untouched.
pub fn sets_offset_at(state: &State, t: usize, d: usize) -> bool
    requires { (t < transaction_count) × (d < descriptor_count) }
    ensures { result ≡ ((descriptor_of state.now t d).dirty
        && is_touched (descriptor_of state.now t d).standing) }
{
    let a = first_at(state, t, d);
    let b = second_at(state, t, d);
    let dirty = state[DIRTY_AT + t];
    bit_sets::has_bit(dirty, d) & ((a != 0) | (b != 0))
}
