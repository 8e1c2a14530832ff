// Tests of the table: opening, refusals with what they leave, chains of moves, and a whole list of calls.
#![tactic(auto)]

#[cfg(test)]
mod chains;
#[cfg(test)]
mod opening;
#[cfg(test)]
mod refusals;
#[cfg(test)]
mod runs;
#[cfg(test)]
mod support;
