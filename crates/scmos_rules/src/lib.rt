// The rules of a layout, as sets of failing cells, what they ask of rectangles, and which of them a
// layout breaks.
#![tactic(auto)]

mod apart;
pub mod checking;
mod composite;
mod gates;
pub mod laws;
mod lengths;
mod nearby;
pub mod number;
mod parts;
pub mod rules;
mod runs;
mod sets;
pub mod violation;

pub use checking::violations;
pub use number::RuleNo;
pub use rules::{Deck, Rules};
pub use violation::{RuleFault, Violation, Violations};
