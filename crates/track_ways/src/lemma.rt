use crate::NetTracks;
use cell_num::List;
use row_state::State;

/// No completion of the state with at most that many further gaps has tracks that go on from tracks with these of the
/// open nets; without any net, from any tracks.
#[derive(Debug, Drop)]
pub struct TrackLemma {
    pub state: State,
    pub gaps: u32,
    pub tracks: NetTracks,
}

/// The lemmas of a certificate of tracks, in order.
pub type TrackLemmas = List<TrackLemma>;
