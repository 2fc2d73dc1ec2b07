// The first cell that some rectangles cover and others don't, for any number of rectangles.
#![tactic(auto)]

mod bare;
pub mod rows;

pub use bare::first_bare;
