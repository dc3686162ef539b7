// The rules and their theorems are in specs/ and proofs/; this crate has no code.
#![tactic(auto)]
