// What the program replay does with a line of a log.
#![tactic(auto)]

pub mod answering;
