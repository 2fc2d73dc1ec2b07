// The fewest further gaps of the completions of states, in a table by what is left of the fingers.
#![tactic(auto)]

mod gap_bound;
mod laws;
mod left_ends;
mod need_bound;
mod needs;
mod rest;

pub use gap_bound::GapBound;
pub use laws::one_value;
pub use left_ends::{LeftEnds, LeftEndsList};
pub use need_bound::{MOST_LEFTOVERS, NeedBound};
pub use needs::Needs;
pub use rest::Rest;
