// Ends every transaction of a state, without its buffers.
ghost use Rattle.spec.specs.Recovery.{EndsAll};

use state::TRANSACTIONS;
use state::layout::{State, reset};

// Ends every transaction as Abort does, on the state alone: for a copy that is saved while transactions are
// open. Files, offsets, lengths, windows and the last grant stay.
pub fn end_all(state: &mut State)
    ensures { EndsAll state.old state.new }
{
    for t in 0..TRANSACTIONS {
        reset(state, t, false);
    }
}
