// The table of flows: opening, its calls, and requests for them.
#![tactic(auto)]

pub mod request;
pub mod table;
