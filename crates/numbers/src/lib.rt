// Numbers in bytes: little-endian numbers, FNV-1a, and decimal digits.
#![tactic(auto)]

pub mod decimal;
pub mod fnv;
pub mod little_endian;
