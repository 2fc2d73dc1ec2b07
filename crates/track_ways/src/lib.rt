// Tracks line by line: which trunks hold a line, which nets are open after a prefix of a row, and the tracks that
// they may have after a next column, as a finite list. Lemmas that no tracks go on from a state.
#![tactic(auto)]

mod crowds;
mod fit;
mod held;
pub mod laws;
pub mod lemma;
pub mod lemma_laws;
pub mod line;
pub mod line_laws;
mod line_ways;
mod lines;
pub mod net_laws;
pub mod passing;
pub mod rule;
pub mod stepping;
mod table;
pub mod track;

pub use crowds::{end_uncrowded, step_uncrowded};
pub use fit::{are_apart, do_fit, is_listed};
pub use held::{is_held, is_marked, is_net, is_open};
pub use laws::{tracks_listed, tracks_listed_by};
pub use lemma::{TrackLemma, TrackLemmas};
pub use lemma_laws::{failures_by_lemmas, lemmas_checked, lemmas_checked_by, tracks_by_lemmas};
pub use line::Line;
pub use line_laws::{legal_by_lines, rows_by_lines, tracks_by_lines, trunks_by_wires};
pub use line_ways::{add_beside, missing_nets, open_tracks, with_track};
pub use lines::{last_line, lines_to, no_nets};
pub use net_laws::{failures, failures_by, open_by_states, tracks_by_states};
pub use passing::ways_through;
pub use rule::{Straight, TrackRule};
pub use stepping::{last_ways, step_ways, ways_after, ways_at_end};
pub use table::with_line;
pub use track::{NetTrack, NetTracks, TrackWays};
