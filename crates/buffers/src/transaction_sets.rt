// A set of transactions as an octet: bit t, worth 2 to the power t, for transaction t.
ghost use Rattle.std.specs.Prelude.{Bool, ◌||◌, ◌≡◌, ℕ, ◌<◌};
ghost use Rattle.limits.specs.Limits.{transaction_count};
ghost use Rattle.buffers.specs.Bits.{with_bit, bits_of};
ghost use Rattle.buffers.specs.Marks.{contains};

use crate::bit_sets;
use limits::TRANSACTIONS;

// Whether transaction t is in the set.
pub fn contains(octet: u8, t: usize) -> bool
    requires { t < transaction_count }
    ensures { result ≡ contains octet t }
{
    bit_sets::has_bit(u16::from(octet), t)
}

// The transactions of both sets.
pub fn joined(a: u8, b: u8) -> u8
    ensures { (u : ℕ) → contains result u ≡ contains a u || contains b u }
{
    a | b
}

// The set with t in it.
#[tactic(auto, using(crate::proofs::BitLaws::shift_one), unfolding(crate::specs::Bits::with_bit))]
pub fn with(octet: u8, t: usize) -> u8
    requires { t < transaction_count }
    ensures { result ≡ with_bit t octet }
{
    octet | (1u8 << t)
}

// The transactions that pass the test.
pub fn those<F: Fn(usize) -> bool>(test: F) -> u8
    requires { (u : ℕ) → u < transaction_count → F.pre test u }
    ensures { (p : ℕ → Bool) → ((u : ℕ) (r : Bool) → u < transaction_count → F.post test u r → r ≡ p u)
        → result ≡ bits_of p transaction_count }
{
    let mut found = 0u8;
    for u in 0..TRANSACTIONS {
        if test(u) {
            found = with(found, u);
        }
    }
    found
}
