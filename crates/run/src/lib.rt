// Papers run on a table of their own, and what is printed of their calls.
#![tactic(auto)]

mod call;
mod calls;
pub mod fault;
pub mod figured;
mod lines;
pub mod print;
mod sound;
mod table_of;
pub mod worked;
