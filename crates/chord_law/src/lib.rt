// The chord law: document 01's demand 3, on two whole stereo calls. No code: the statement is in
// specs/, and `paired_calls` has a function whose contract it is.
#![tactic(auto)]
