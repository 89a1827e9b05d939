// The calls that look at nothing committed: Seek and Write.
#![tactic(auto)]

mod seek_call;
mod write_call;

pub use seek_call::seek;
pub use write_call::write;
