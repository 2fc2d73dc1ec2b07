// A search, level by level, for lemmas that prove how many ends every list of choices results in.
#![tactic(auto)]

mod progress;
mod proof;
mod search;
mod units;
mod visit;

pub use proof::{EndProof, SearchEnd};
pub use search::{StartedSteps, search_ends};
