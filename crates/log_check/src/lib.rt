// Whether a log proves that its row has least gaps.
#![tactic(auto)]

mod check;
mod checker;
mod ending;
mod listed;
mod refused;
mod seen;

pub use check::check_log;
pub use checker::Checker;
pub use listed::arrangement;
pub use refused::Refused;
pub use seen::Seen;
