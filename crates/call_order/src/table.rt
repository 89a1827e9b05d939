// What is computed once: whom each listed Commit would make stale, who has a byte for a closed file, and
// whether Commit's placing can have a part.
ghost use Rattle.std.specs.Prelude.{true, not, ◌&&◌, List, ◌≡◌, ℕ, ◌<◌, length};
ghost use Rattle.limits.specs.Limits.{buffer_bytes, transaction_count};
ghost use Rattle.buffers.specs.Bits.{bits_of};
ghost use Rattle.state.specs.Layout.{store_of, journal_of, transaction_of};
ghost use Rattle.admission.specs.Admission.{store_in};
ghost use Rattle.spec_orders.specs.Orders.{all_in};
ghost use Rattle.spec.specs.Promises.{machine_of};
ghost use Rattle.commit_windows.specs.WindowCheck.{has_byte_for_closed};
ghost use Rattle.call_order.specs.OrderTable.{AllLand, Tabled, waits_in};

use crate::members::Members;
use buffers::transaction_sets::those;
use commit_conflicts::stale_by;
use commit_windows::has_byte_for_closed;
use state::layout::{State, is_begun, standing_at};
use state::{DESCRIPTORS, TRANSACTIONS};

// The octet that a granted Commit of each member would answer now; 0 for the others.
pub fn octets_of(state: &State, marks: &[u8], list: Members) -> [u8; TRANSACTIONS]
    requires { AllLand state.now list.numbers.now × (length marks.now ≡ buffer_bytes) }
    ensures { (files logs undo : List ℕ) → length logs ≡ buffer_bytes
        → Tabled (machine_of state.now files logs marks.now undo)
        list.entry.numbers.now result }
{
    let mut table = [0u8; TRANSACTIONS];
    for member in list.numbers {
        let t = usize::from(*member);
        table[t] = stale_by(state, marks, t);
    }
    table
}

// The open transactions that have a byte for a file closed at the minute, as a bit set.
pub fn closed_of(state: &State, minute: u16) -> u8
    requires { store_in (store_of state.now) (journal_of state.now) ≡ true }
    ensures { (logs : List ℕ) → length logs ≡ buffer_bytes → result ≡ bits_of (λ t.
        (transaction_of state.now t).begun && has_byte_for_closed state.now logs t minute)
        transaction_count }
{
    those(|t| is_begun(state, t) && has_byte_for_closed(state, t, minute))
}

// Transaction t stands Deferred or Moved somewhere.
fn waits(state: &State, t: usize) -> bool
    requires { t < transaction_count }
    ensures { result ≡ waits_in state.now t }
{
    (0..DESCRIPTORS).any(|d| standing_at(state, t, d).may_wait())
}

// No member stands Deferred or Moved.
pub fn none_waits(state: &State, list: Members) -> bool
    ensures { result ≡ all_in (λ t. not (waits_in state.now t)) list.entry.numbers.now }
{
    list.numbers.iter().all(|t| !waits(state, usize::from(*t)))
}
