// Whether a lemma of a log follows from those before it: the best bounds known of states, and the trails of rows,
// which are counted once.
#![tactic(auto)]

mod known;
mod lemma;
mod trails;

pub use known::Known;
pub use lemma::{Premises, reaches};
pub use trails::RowTrails;
