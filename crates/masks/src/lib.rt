// Two factors of a bin's gain: the gate of the note layer, and the drawn curve's gain.
#![tactic(auto)]

pub mod gates;
pub mod manual;
pub mod rows;
