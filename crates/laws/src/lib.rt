// What holds of document 01's steps and calls on every well-formed table: theorems in specs/, this crate has no code.
#![tactic(auto)]
