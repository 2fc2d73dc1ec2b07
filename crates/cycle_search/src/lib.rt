// The first row of a cell's fingers that can be wired at all, or lemmas on cycles that certify that there is none.
#![tactic(auto)]

mod ahead;
mod asked;
mod below;
mod needed;
mod order;
mod progress;
mod search;
mod visit;
mod ways;

pub use search::{WiredRow, wired_row};
