// Tests of blocks, papers and the writer of papers on examples.
#![tactic(auto)]

#[cfg(test)]
mod block_tests;
#[cfg(test)]
mod fault_tests;
#[cfg(test)]
mod order_tests;
#[cfg(test)]
mod reading_tests;
#[cfg(test)]
mod samples;
#[cfg(test)]
mod writer_tests;
