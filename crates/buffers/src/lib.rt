// Buffers of octets: parts that are copied, cut and lent (`parts`), and the marks of transactions (`marks`).
// Sets as bits: of numbers below 16 (`bit_sets`), of transactions (`transaction_sets`). How marks lie in
// octets is known in this crate alone.
#![tactic(auto)]

pub mod bit_sets;
pub mod marks;
pub mod parts;
pub mod transaction_sets;
