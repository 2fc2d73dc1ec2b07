// Lemmas on ends without those that no later one rests on.
#![tactic(auto)]

mod back;
mod marks;
mod prune;

pub use prune::pruned;
