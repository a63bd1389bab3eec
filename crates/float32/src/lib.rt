// What the language's operators lack for f32, by topic. Every function equals a definition in
// specs/ and takes any argument, except three helpers of bits and remainder that have
// preconditions.
#![tactic(auto)]

pub mod bits;
pub mod constants;
pub mod order;
pub mod powers;
pub mod remainder;
