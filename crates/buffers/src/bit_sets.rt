// A set of numbers below 16 as the bits of one: bit k, worth 2 to the power k, for k. Beside `transaction_sets`,
// whose sets are octets: each operation is one line, and a trait over both would have each of them twice and more.
ghost use Rattle.std.specs.Prelude.{◌≡◌, ◌<◌};
ghost use Rattle.buffers.specs.Bits.{with_bit, without_bit, with_bit_as};
ghost use Rattle.buffers.specs.Marks.{contains};

// Whether k is in the set.
#[tactic(auto, unfolding(crate::specs::Marks::contains, crate::specs::Bits::bit))]
pub fn has_bit(set: u16, k: usize) -> bool
    requires { k < 16 }
    ensures { result ≡ contains set k }
{
    (set >> k) % 2 == 1
}

// The set with k in it.
#[tactic(auto, using(crate::proofs::BitLaws::shift_one), unfolding(crate::specs::Bits::with_bit))]
pub fn added(set: u16, k: usize) -> u16
    requires { k < 16 }
    ensures { result ≡ with_bit k set }
{
    set | (1u16 << k)
}

// The set without k.
#[tactic(auto, using(crate::proofs::BitLaws::shift_one), unfolding(crate::specs::Bits::without_bit))]
pub fn removed(set: u16, k: usize) -> u16
    requires { k < 16 }
    ensures { result ≡ without_bit k set }
{
    set & (65535 - (1u16 << k))
}

// The set with k in it or not, as b says.
#[tactic(auto, unfolding(crate::specs::Bits::with_bit_as))]
pub fn put(set: u16, k: usize, b: bool) -> u16
    requires { k < 16 }
    ensures { result ≡ with_bit_as k b set }
{
    if b { added(set, k) } else { removed(set, k) }
}
