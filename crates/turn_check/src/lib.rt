// A checker of the text of a certificate of tracks, where nets go straight or where they may turn.
#![tactic(auto)]

mod accept;
mod certify;
mod course;

pub use accept::check_turning;
pub use course::{LowProved, check_course};
