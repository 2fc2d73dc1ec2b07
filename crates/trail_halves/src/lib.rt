// Ends of trails where the columns with a finger in one row alone stay open: laws, and the choices of a gate.
#![tactic(auto)]

pub mod choice;
mod laws;

pub use choice::OpenChoice;
pub use laws::{filled_ends, no_halves, open_choices};
