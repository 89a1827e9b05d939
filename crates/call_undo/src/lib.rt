// Undo of the last commit (02, F-13: taking back; R-12.1).
#![tactic(auto)]

mod restore;
mod undo_call;

pub use undo_call::undo_commit;
