// Blocks: bytes in pieces of 512, each with a check of its own, whatever its records are.
#![tactic(auto)]

pub mod block;
pub mod check;
pub mod fault;
