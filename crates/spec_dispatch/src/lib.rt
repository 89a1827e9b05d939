// The dispatcher: definitions in specs/, and what is proved of them in proofs/. No code.
#![tactic(auto)]
