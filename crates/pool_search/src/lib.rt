// A search for lemmas that prove ends of trails along an order of gates whose half columns stay open.
#![tactic(auto)]

mod search;
mod walk;

pub use search::search_pools;
