// The calls that look: GetFilePointer and Read.
#![tactic(auto)]

mod get_file_pointer_call;
mod read_call;
mod read_tests;

pub use get_file_pointer_call::get_file_pointer;
pub use read_call::read;
