// Certificates by trails of any version: reading, writing, checking and searching.
#![tactic(auto)]

mod check;
mod evidence;
mod found;
mod in_vain;
mod read;
mod search;
mod write;

pub use check::check_either;
pub use evidence::TrailEvidence;
pub use found::{EitherFound, EitherStop};
pub use read::read_either;
pub use search::search_either;
pub use write::write_either;
