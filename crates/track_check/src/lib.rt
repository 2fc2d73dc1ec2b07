// A checker of certificates of tracks: whether a lemma is justified by those before it, and whether a list of lemmas
// shows that each row with that many gaps needs more tracks. The same of a certificate's text.
#![tactic(auto)]

mod accept;
mod certify;
pub mod check;
pub mod counts;
mod covered;
pub mod known;
pub mod lemma;
pub mod nets;
mod refused;
mod rejected;
mod steps;
mod valid;

pub use accept::{TracksProved, check_text};
pub use certify::line_of;
pub use check::{check_tracks, check_tracks_by};
pub use counts::touches;
pub use known::{NotedLemmas, lists};
pub use lemma::{TrackGrounds, is_justified};
pub use nets::{StateNets, ends_fit, nets_ahead, state_nets};
pub use refused::TracksRefused;
pub use rejected::TextRejected;
