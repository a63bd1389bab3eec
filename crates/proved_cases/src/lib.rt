// The proved cases of document 01: the list is in specs/, and the theorem that each holds in
// proofs/. There is no code.
#![tactic(auto)]
