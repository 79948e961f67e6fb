// Which states runs leave: laws in proofs/. This crate has no code.
#![tactic(auto)]
