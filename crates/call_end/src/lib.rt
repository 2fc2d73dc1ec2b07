// How a call of the program ends: its status, the files that it makes and its report.
#![tactic(auto)]

mod delivery;
mod end;
mod status;
mod stem;

pub use delivery::deliver;
pub use end::{End, Output, OutputList};
pub use status::Status;
pub use stem::Stem;
