// The reader of the case program: what a line does to a case, and a text that comes in parts of any length.
#![tactic(auto)]

pub mod buffers;
pub mod limits;
pub mod line;
pub mod stream;
