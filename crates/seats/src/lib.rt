// The seats of a table: where a fingerprint may sit, what a seat gives back, and how the seat that holds one is found.
#![tactic(auto)]

pub mod find;
pub mod place;
pub mod refusal;
pub mod seat;
pub mod shape;
pub mod write;
