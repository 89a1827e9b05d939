// How the scripts end, and what the dispatcher answers.
use crate::scripts::SCRIPTS;
use state::outcomes::{Outcome, Refusal};

// How a script stands: it goes on, was granted, or a refusal ended it; plainer than an Option of a Result.
#[derive(Clone, Copy)]
pub enum End {
    Unfinished,
    Granted,
    Failed(Refusal),
}

#[derive(Clone, Copy)]
pub struct Ended {
    pub end: End,
}

pub type Ends = [Ended; SCRIPTS];

// What the dispatcher answers: plainly or a refusal, the end of each script, and the number of Commits made. The
// promise says ends and number with a refusal too (specs/Promise.antt), so it is no Result.
#[derive(Clone, Copy)]
pub struct Dispatched {
    pub outcome: Outcome,
    pub ends: [Ended; SCRIPTS],
    pub commits: usize,
}
