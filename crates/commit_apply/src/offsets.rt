// Commit's placing, and the committed offsets that a commit sets.
ghost use Rattle.spec.specs.Promises.{lent_mut};
ghost use Rattle.std.specs.Prelude.{true, ◌≡◌, ℕ, ◌≤◌, ◌<◌, get_or};
ghost use Rattle.limits.specs.Limits.{file_bytes, descriptor_count, transaction_count};
ghost use Rattle.state.specs.Layout.{store_of, transaction_of};
ghost use Rattle.commit_apply.specs.Apply.{places_fit, with_offsets_of, Becomes};

use limits::FILE_END;
use state::DESCRIPTORS;
use state::dirty::sets_offset_at;
use state::layout::{State, offset_at, put_offset, standing_at};
use state::readers::{any_dirty, may_wait_to};

// Commit's placing: every advance of transaction t fits behind its committed offset.
pub fn places_fit(state: &State, t: usize) -> bool
    requires { (t < transaction_count)
        × ((d : ℕ) → d < descriptor_count → get_or (store_of state.now).offsets d 0 ≤ file_bytes) }
    ensures { result
        ≡ places_fit (store_of state.now) (transaction_of state.now t) }
{
    let mut good = true;
    for d in 0..DESCRIPTORS {
        let room = FILE_END - offset_at(state, d);
        good &= !may_wait_to(state, t, d, usize::from(room) + 1);
    }
    good
}

// Puts the committed offsets that a commit of transaction t sets. Where nothing is dirty, it sets none.
pub fn set_offsets(state: &mut State, t: usize)
    requires { (t < transaction_count)
        × (places_fit (store_of state.old) (transaction_of state.old t) ≡ true) }
    ensures { Becomes (lent_mut state.old state.new) (with_offsets_of (transaction_of state.old t)) }
{
    if !any_dirty(state, t) {
        return;
    }
    for d in 0..DESCRIPTORS {
        if sets_offset_at(state, t, d) {
            let standing = standing_at(state, t, d);
            let c = offset_at(state, d);
            put_offset(state, d, standing.final_offset(c));
        }
    }
}
