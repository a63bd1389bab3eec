// The compact way: the partials of a tone raised together, in blocks of 64 bins, each partial only
// where it can be the highest.
#![tactic(auto)]

pub mod columns;
pub mod compact;
