// Bytes and numbers: values of 1 to 8 bytes in a slice, and numbers cut to a size.
#![tactic(auto)]

pub mod bytes;
pub mod size;
