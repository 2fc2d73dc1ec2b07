// The tracks that the open nets of a row's prefix may have after a next column where nets may turn, as a finite list,
// and the rules by which it is shown that no such tracks go on from a state.
#![tactic(auto)]

pub mod fail_laws;
pub mod laws;
pub mod lemma_laws;
mod line_ways;
pub mod rule;
pub mod stepping;

pub use fail_laws::piece_failures;
pub use laws::piece_tracks_listed;
pub use lemma_laws::pieces_by_lemmas;
pub use rule::Turning;
pub use stepping::{piece_last_ways, piece_step_ways};
