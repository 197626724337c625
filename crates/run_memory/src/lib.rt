// Varnodes over the three lent spaces, and over their labels.
#![tactic(auto)]

pub mod labels;
pub mod space;
pub mod varnode;
