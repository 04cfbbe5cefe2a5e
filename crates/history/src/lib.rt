// The proof of demand 3 on rows; no code.
#![tactic(auto)]
