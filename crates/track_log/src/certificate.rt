use row_cycles::CycleLemmas;
use track_ways::TrackLemmas;

/// The most tracks that the text of a certificate can hold: one for each net.
pub const MOST_TRACKS: u32 = 256;

/// How nets go through the channel in the routings that a certificate is about.
#[derive(Clone, Copy, Debug, PartialEq, Eq)]
pub enum Course {
    /// Each net keeps its track.
    Straight,
    /// A net may change its track at its node places.
    Turning,
}

/// A certificate that each row with at most `gaps` gaps needs `tracks` tracks. Its lemmas speak of legal routings on
/// one track fewer, its lemmas on cycles of rows that have no legal routing on any number of tracks.
#[derive(Debug, Drop)]
pub struct TrackCertificate {
    pub gaps: u32,
    pub tracks: u32,
    pub cycles: CycleLemmas,
    pub lemmas: TrackLemmas,
}
