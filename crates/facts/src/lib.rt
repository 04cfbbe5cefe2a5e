// Laws of the tests that document 01's sentences are made of: they stand in specs/, this crate has no code.
#![tactic(auto)]
