// The three demands of document 01, stated about what the calls promise: theorems in specs/ and proofs/, this crate has no code.
#![tactic(auto)]
