// Powers and logarithms of document 01 by one table, P, which the caller makes once
// (`table::power_table`) and lends.
#![tactic(auto)]

pub mod decimal;
pub mod exp2;
pub mod log2;
pub mod table;
