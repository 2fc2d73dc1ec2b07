// One row of a list of columns as trails: what a column costs after open ends, sets of nets, and the trails that a
// number of nets of odd degree needs. It knows nothing of kinds of fingers and of states.
#![tactic(auto)]

mod count;
mod end;
mod set;

pub use count::{count_by_class, odd_trails, sum_trails};
pub use end::{cost_at_ends, end_behind};
pub use set::{NETS, count_nets, toggle_net};
