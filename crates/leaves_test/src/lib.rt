// Tests of numbers, rules and tallies on examples.
#![tactic(auto)]

#[cfg(test)]
mod fnv_tests;
#[cfg(test)]
mod number_tests;
#[cfg(test)]
mod rule_tests;
#[cfg(test)]
mod tally_tests;
