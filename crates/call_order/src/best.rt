// The earliest of the orders tried with the most grants, and the gap.
ghost use Rattle.std.specs.Prelude.{not, cond, ◌≡◌, ◌-◌, ◌≤◌, length};
ghost use Rattle.buffers.specs.Marks.{contains as contained};
ghost use Rattle.spec_orders.specs.Orders.{count_in, factorial};
ghost use Rattle.call_order.specs.OrderTable.{grants_by_table, BestIn};

use crate::members::Members;
use crate::permutation::{numbers_of, order_at};
use buffers::transaction_sets::contains;
use state::TRANSACTIONS;
use state::layout::State;

// What is known before any order is tried: the table of octets, the octet of those with a byte for a closed
// file, and whether no listed transaction stands Deferred or Moved.
#[derive(Clone, Copy)]
pub struct OrderTable {
    pub table: [u8; TRANSACTIONS],
    pub closed: u8,
    pub placed: bool,
}

// An order and its grants.
#[derive(Clone, Copy)]
pub struct BestFound {
    pub order: [u8; TRANSACTIONS],
    pub grants: u8,
}

impl OrderTable {
    // The grants of the order.
    #[tactic(auto, unfolding(crate::specs::OrderTable::grants_by_table))]
    fn grants_of(&self, state: &State, order: Members) -> u8
        ensures { result ≡ grants_by_table state.now self.now order.entry.numbers.now }
    {
        if self.placed {
            self.grants_passing(order)
        } else {
            self.grants_following(state, order)
        }
    }

    // The best of the first orders of the list, as many as are to be tried.
    pub fn best_of(&self, state: &State, list: Members, tried: usize) -> BestFound
        requires { tried ≤ factorial (length list.numbers.now) }
        ensures { BestIn (grants_by_table state.now self.now) tried list.entry.numbers.now
            (length list.entry.numbers.now) result }
    {
        let order = numbers_of(list);
        let grants = self.grants_of(state, list);
        let mut best = BestFound { order, grants };
        for i in 0..tried {
            let order = order_at(list, i);
            let arranged = Members {
                numbers: &order[..list.numbers.len()],
            };
            let grants = self.grants_of(state, arranged);
            if best.grants < grants {
                best = BestFound { order, grants };
            }
        }
        best
    }

    // The gap: 0 when all orders were tried, otherwise the count of those without a byte for a closed file,
    // less the grants (R-14.3).
    pub fn gap_of(&self, all: bool, list: Members, grants: u8) -> u8
        ensures { result ≡ cond all 0
            (count_in (λ t. not (contained self.now.closed t)) list.entry.numbers.now - grants) }
    {
        if all {
            return 0;
        }
        count_outside(self.closed, list).saturating_sub(grants)
    }
}

// How many of the list are not in the octet.
fn count_outside(octet: u8, list: Members) -> u8
    ensures { result ≡ count_in (λ t. not (contained octet t)) list.entry.numbers.now }
{
    list.numbers
        .iter()
        .filter(|t| !contains(octet, usize::from(**t)))
        .count() as u8
}
