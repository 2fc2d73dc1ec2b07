// The first least row of some fingers, with a log that proves it.
#![tactic(auto)]

mod descent;
mod found;
mod limits;
mod listed;
mod progress;
mod row_rule;
mod whole;

pub use bound_log::Kept;
pub use found::{Found, FoundKept, Stop, StopKept};
pub use limits::search_kept;
pub use listed::{arrangement, log_steps};
pub use whole::search;
