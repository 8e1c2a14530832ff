// Kinds of tally: what a table keeps of each fingerprint, as a trait, and the two kinds that papers name.
#![tactic(auto)]

pub mod replicas;
pub mod tally;
pub mod traffic;
