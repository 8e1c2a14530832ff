// The writer of papers.
#![tactic(auto)]

mod block;
mod check;
mod records;
pub mod write;
