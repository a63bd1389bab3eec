// Laws of f32 arithmetic, for the proofs of other crates: they are in specs/. There is no code.
#![tactic(auto)]
