// Recorded samples of the Rust's answers: the numbers in them, their lines, the hash of a state, and what a
// replay counts.
#![tactic(auto)]

pub mod hash;
pub mod hex;
pub mod input;
pub mod lines;
pub mod report;
pub mod signed;
pub mod tally;
