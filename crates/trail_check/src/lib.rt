// Whether a certificate by trails proves that its row has least gaps.
#![tactic(auto)]

mod check;
mod closing;
mod gates;
mod index;
mod justified;
mod known;
mod laws;
mod lemma;
mod refusal;
mod row;
mod ways;

pub use check::check_trails;
pub use closing::{ClosingNode, ClosingNodes, closing_nodes, is_odd_after, odd_ends};
pub use index::{LemmaIndex, mixed, state_number};
pub use justified::check_lemmas;
pub use known::{ends_proved, is_same_state};
pub use laws::{classes, fewest_gaps, known_ends, possible_gaps};
pub use lemma::{TrailLemma, lemma_listed};
pub use refusal::TrailRefusal;
pub use row::check_row;
pub use ways::{MOST_CHOICES, has_many_ways};
