// The meaning of the store: definitions in specs/, and the theorems about them (Serializability, Refusals) in
// proofs/. No code.
#![tactic(auto)]
