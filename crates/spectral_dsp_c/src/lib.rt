// The static library: C names, plain numbers and slices. A slice is passed as a pointer and a
// length, a record as a C struct. An open call returns the number of its answer, 0 when it is done.
// When done it writes its results through the parameters lent for them; when refused it writes the
// place and nothing else. Reading a scene record returns number, place and scene in one record, the
// calls that change a bank of voices return number, place and bank, and those on a mixer likewise.
#![tactic(auto)]

mod banks;
mod builders;
mod mixers;
mod numbers;
mod oiko;
mod processing;
mod records;
mod spectral;
