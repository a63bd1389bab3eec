// Powers and logarithms of a row of numbers, in place, with the table of `power`: in stages, most
// of which are vectorized.
#![tactic(auto)]

pub mod exp2;
pub mod log2;
