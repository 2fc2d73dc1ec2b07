// Fingers of which those of one row on some gates are left out. The fewest gaps of those that stay are no more than
// those of all and the columns lost.
#![tactic(auto)]

pub mod fewer;
mod laws;

pub use fewer::{LeftOut, columns_lost, staying};
pub use laws::fewer_gaps;
