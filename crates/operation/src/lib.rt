// The list of operations: its layout, and the rules that each of them keeps.
#![tactic(auto)]

pub mod decode;
pub mod layout;
pub mod report;
pub mod rules;
