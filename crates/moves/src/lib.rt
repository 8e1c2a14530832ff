// Moves: a seat for a new entry, where its buckets are full by moving entries along a chain, each to its other bucket.
#![tactic(auto)]

pub mod place;
mod traversal;
mod walk;
