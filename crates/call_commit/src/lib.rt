// Commit (`commit_call`), what it does once it is granted (`granting`), and how many transactions its octet
// names (`count_stale`).
#![tactic(auto)]

mod commit_call;
mod count_stale;
mod granting;

pub use commit_call::commit;
pub use count_stale::made_stale;
