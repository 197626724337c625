// The case program's output: numbers and bytes as text, and what a run leaves as text.
#![tactic(auto)]

pub mod outcome;
pub mod text;
