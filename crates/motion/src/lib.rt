// The moving field: how open it is at a frequency, and the attenuation that follows from it.
#![tactic(auto)]

pub mod field;
pub mod shapes;
