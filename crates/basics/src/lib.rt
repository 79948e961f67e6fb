// Laws of booleans, bits, lists and sums that the crates above lean on, in proofs/; what a sum is, in specs/. This crate has no code.
#![tactic(auto)]
