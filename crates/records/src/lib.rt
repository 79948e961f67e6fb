// Laws of records, steps, rows, cuts and lines, apart from how a table holds them, in proofs/. This crate has no code.
#![tactic(auto)]
