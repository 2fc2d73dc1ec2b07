// Wide transistors as several fingers of a row.
#![tactic(auto)]

mod count;
mod cut;
mod folding;

pub use folding::{FoldFault, fold};
