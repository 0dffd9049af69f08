// What the program `worked` shows: answers as numbers, a picture of the slice pool, two tables joined, a chunk
// released and swept with a delay that may be negative, runs released by lists, and the cases counted.
#![tactic(auto)]

pub mod joins;
pub mod lists;
pub mod never;
pub mod numbers;
pub mod picture;
pub mod tally;
