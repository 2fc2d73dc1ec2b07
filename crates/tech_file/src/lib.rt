// The technology file: a TOML table of lengths, limits and names.
#![tactic(auto)]

mod fault;
mod keys;
mod models;
mod names;
mod number;
mod rails;
mod read;
mod tech;
mod words;

pub use fault::TechFault;
pub use read::read_tech;
pub use tech::Tech;
