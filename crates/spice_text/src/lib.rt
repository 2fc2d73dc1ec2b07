// The logical lines of a SPICE text, the words in them, and numbers.
#![tactic(auto)]

mod exponent;
mod logical;
mod mantissa;
mod number;
mod physical;
mod suffix;
mod words;

pub use logical::{Line, Lines, TextFault, split_lines};
pub use number::read_fixed;
