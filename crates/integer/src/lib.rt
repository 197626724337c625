// The values of the integer operations, one by one.
#![tactic(auto)]

pub mod boolean;
pub mod signed;
pub mod unsigned;
