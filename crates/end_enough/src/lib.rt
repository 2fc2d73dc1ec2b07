// Laws alone: how many units are enough for a search for lemmas on ends, so that it never spends them.
#![tactic(auto)]

mod laws;

pub use laws::{few_lemmas, never_spent};
