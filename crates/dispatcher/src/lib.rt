// The dispatcher (`dispatch_call`): rounds of calls (`rounds`, `calls`) until each script is over (02, F-10;
// R-13.1). Beside it stand the types of what it takes (`scripts`) and of what it answers (`ends`).
#![tactic(auto)]

mod calls;
mod dispatch_call;
pub mod ends;
mod rounds;
pub mod scripts;

pub use dispatch_call::dispatch;
