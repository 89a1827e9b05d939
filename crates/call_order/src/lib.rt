// The best order to commit in (02, F-14; R-14.1). One octet for each transaction has those whom its granted
// Commit would make stale (`table`). Permutation i is decoded from i in the factorial number system
// (`permutation`). One pass over these octets counts the grants of an order (`pass`); a longer one does where
// Commit's placing has a part in them (`follow`).
#![tactic(auto)]

mod admit_list;
mod best;
mod follow;
mod members;
mod order_call;
mod pass;
mod permutation;
mod table;

pub use order_call::{Best, best_order};
