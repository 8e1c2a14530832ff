// Fingerprint rules: how a flow's key becomes a fingerprint, as a trait, and the two rules that papers name.
#![tactic(auto)]

pub mod fnv;
pub mod plain_number;
pub mod rule;
