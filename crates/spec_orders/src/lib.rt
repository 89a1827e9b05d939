// The orders of a list, and the best of those tried: definitions in specs/, and their laws in proofs/. No
// code.
#![tactic(auto)]
