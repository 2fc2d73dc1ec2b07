// Columns of a row, their gaps, and which rows arrange which fingers.
#![tactic(auto)]

pub mod arrange;
pub mod column;
pub mod gap;

pub use arrange::is_arrangement;
pub use column::{Arrangement, Column, Placed};
pub use gap::{gaps, has_gap};
