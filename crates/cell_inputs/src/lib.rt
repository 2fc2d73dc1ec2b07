// What a cell is made of, a technology, a subcircuit and its fingers, and how it is made.
#![tactic(auto)]

pub mod inputs;
pub mod style;

pub use inputs::Inputs;
pub use style::{LeastRow, Style, Taps, Wiring};
