// The rules of document 01 are definitions and theorems: specs/ and proofs/. This crate has no code.
#![tactic(auto)]
