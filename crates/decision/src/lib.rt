// The executable decision and the theorems that tie it to the model are in specs/ and proofs/; this crate has no code.
#![tactic(auto)]
