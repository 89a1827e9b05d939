// Outcomes as numbers, and digests of states and answers.
#![tactic(auto)]

pub mod digest;
pub mod outcomes;
