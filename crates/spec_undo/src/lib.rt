// The undo log: the bytes that writes overwrite, and how they are restored. Definitions in specs/, and their
// law in proofs/. No code.
#![tactic(auto)]
