// The rules tried on vectors: definitions and theorems in specs/. This crate has no code.
#![tactic(auto)]
