// The permutations of a list, by number.
ghost use Rattle.std.specs.Prelude.{◌≡◌, suc, ◌<◌, ◌≤◌, length, take};
ghost use Rattle.limits.specs.Limits.{transaction_count};
ghost use Rattle.spec_orders.specs.Orders.{without, factorial};
ghost use Rattle.spec_orders.specs.Numbering.{order_at};
ghost use Rattle.call_order.specs.OrderTable.{ZerosAfter};

use crate::members::Members;
use buffers::parts::copy_to;
use state::TRANSACTIONS;

// How many orders a list of n has.
#[tactic(auto, using(crate::proofs::ArrangeLaws::factorials), unfolding(spec_orders::specs::Orders::factorial))]
pub fn factorial(n: usize) -> usize
    requires { n ≤ transaction_count }
    ensures { result ≡ factorial n }
{
    let mut product = 1;
    for k in 0..n {
        product *= k + 1;
    }
    product
}

// The list's numbers, and zeros after them.
pub fn numbers_of(list: Members) -> [u8; TRANSACTIONS]
    ensures { (take (length list.entry.numbers.now) result ≡ list.entry.numbers.now)
        × ZerosAfter (length list.entry.numbers.now) result }
{
    let mut numbers = [0u8; TRANSACTIONS];
    copy_to(&mut numbers, 0, list.numbers);
    numbers
}

// The first m + 1 numbers without the one at q: those after it move up. A loop, since `copy_within` would have
// the library for C ask for memmove.
fn removed(numbers: [u8; TRANSACTIONS], m: usize, q: usize) -> [u8; TRANSACTIONS]
    requires { (m < transaction_count) × (q ≤ m) }
    ensures { take m result ≡ without q (take (suc m) numbers) }
{
    let mut rest = numbers;
    for j in q..m {
        rest[j] = rest[j + 1];
    }
    rest
}

// Permutation i of the list, and zeros after it, decoded in the factorial number system: the position of its
// first is the quotient by (n - 1)!, the remainder numbers the permutation of the others.
#[tactic(auto, using(crate::proofs::ArrangeLaws::positions))]
pub fn order_at(list: Members, i: usize) -> [u8; TRANSACTIONS]
    requires { i < factorial (length list.numbers.now) }
    ensures { (take (length list.entry.numbers.now) result
        ≡ order_at (length list.entry.numbers.now) i list.entry.numbers.now)
        × ZerosAfter (length list.entry.numbers.now) result }
{
    let mut order = [0u8; TRANSACTIONS];
    let mut rest = numbers_of(list);
    let mut left = i;
    let n = list.numbers.len();
    for k in 0..n {
        let m = n - k - 1;
        let f = factorial(m);
        let q = left / f;
        order[k] = rest[q];
        rest = removed(rest, m, q);
        left %= f;
    }
    order
}
