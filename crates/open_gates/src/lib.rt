// Gates with half columns that nothing fills: their choices and nodes, merged, and the ends that no row escapes all the
// same.
#![tactic(auto)]

mod choices;
pub mod gates;
pub mod laws;
mod level;
pub mod merge;
mod nodes;

pub use gates::{OpenGates, has_more, is_uneven, row_of};
pub use level::{filled_levels_within, open_levels_within};
