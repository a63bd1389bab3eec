// Lobes over at most 64 consecutive bins at a time: what a lobe opens at each of them, and the
// plain way of raising lobes, one after the other.
#![tactic(auto)]

mod by_frequency;
pub mod chunk;
pub mod plain;

// A voice's gain on each side.
#[derive(Clone, Copy)]
pub struct Gains {
    pub first: f32,
    pub second: f32,
}
