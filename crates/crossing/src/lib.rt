// The open calls for a caller in C: settings come in as plain numbers, the answer goes out as a
// number with a place and values.
#![tactic(auto)]

pub mod answers;
pub mod settings;
