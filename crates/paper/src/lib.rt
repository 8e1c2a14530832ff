// Papers: a table's shape and the calls on it, in blocks of bytes.
#![tactic(auto)]

mod block;
pub mod check;
pub mod fault;
pub mod header;
pub mod layout;
pub mod reader;
pub mod record;
mod zeros;
