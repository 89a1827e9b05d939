// Who has sighted a byte that a commit would set.
ghost use Rattle.std.specs.Prelude.{List, ◌≡◌, ℕ, length};
ghost use Rattle.limits.specs.Limits.{buffer_bytes};
ghost use Rattle.commit_apply.specs.Apply.{CanLandIn, bytes_set_in};
ghost use Rattle.commit_conflicts.specs.Conflicts.{Sighters};

use buffers::marks::markers;
use buffers::transaction_sets::joined;
use commit_apply::writes::landing_at;
use counters::Used;
use limits::FILE_BYTES;
use state::layout::State;

// Those of the watched transactions that have a mark on a byte that transaction t's writes would set.
pub fn byte_sighters<'a>(state: &'a State, marks: &'a [u8], t: usize, used: Used, watched: u8) -> u8
    requires { CanLandIn state.now t used.records × (length marks.now ≡ buffer_bytes) }
    ensures { (logs : List ℕ) → length logs ≡ buffer_bytes
        → Sighters state.now marks.now watched
        (bytes_set_in state.now logs t used.records) result }
{
    let mut found = 0u8;
    for k in 0..used.records {
        let landed = landing_at(state, t, k);
        let marked = markers(
            marks,
            watched,
            FILE_BYTES * landed.file + landed.place,
            landed.length,
        );
        found = joined(found, marked);
    }
    found
}
