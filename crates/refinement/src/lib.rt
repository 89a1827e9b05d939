// Laws that go from the state to its meaning and back, and laws of the tests before a call (proofs/). No
// code.
#![tactic(auto)]
