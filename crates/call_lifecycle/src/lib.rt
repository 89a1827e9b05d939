// Fresh, Begin and Abort; and `end_all`, which ends every transaction in a state that is saved.
#![tactic(auto)]

mod abort_call;
mod begin_call;
mod end_all_call;
mod fresh_call;

pub use abort_call::abort;
pub use begin_call::begin;
pub use end_all_call::end_all;
pub use fresh_call::fresh;
