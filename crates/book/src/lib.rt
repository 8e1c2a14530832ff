// The account book that a table is held against, the answers of its calls, and worked cases of the rules.
#![tactic(auto)]

pub mod answer;
pub mod worked;
