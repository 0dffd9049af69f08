// Size arithmetic: what the arena layer takes from bins.rs and os.rs.
#![tactic(auto)]

pub mod bins;
pub mod os;
