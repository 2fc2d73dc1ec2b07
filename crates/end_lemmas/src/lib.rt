// Lemmas on the ends that lists of choices result in, level by level, and whether each is justified by those before it.
#![tactic(auto)]

mod check;
mod index;
mod known;
mod laws;
mod lemma;
mod steps;

pub use check::first_unproved;
pub use index::LemmaIndex;
pub use known::ends_proved;
pub use laws::{proved_ends, true_lemmas};
pub use lemma::EndLemma;
pub use steps::{EndSteps, Settled};
