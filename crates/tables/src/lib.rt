// Laws of the table: how its bytes hold the records, and what a call leaves of them, in proofs/. This crate has no code.
#![tactic(auto)]
