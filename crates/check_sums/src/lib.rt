// Check sums of one lane, by which words of the code are told.
#![tactic(auto)]

pub mod lane;
pub mod powers;
