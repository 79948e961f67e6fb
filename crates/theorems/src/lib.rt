// Demands 2 and 3, and what the slips ask for: the statements in specs/, their proofs in proofs/. Nothing leans on this crate, and it has no code.
#![tactic(auto)]
