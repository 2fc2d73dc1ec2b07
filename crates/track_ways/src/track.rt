use cell_num::{List, NetNo};

/// A net and its track.
#[derive(Clone, Copy, Debug, PartialEq, Eq)]
pub struct NetTrack {
    pub net: NetNo,
    pub track: u32,
}

/// Tracks of some nets.
pub type NetTracks = List<NetTrack>;

/// Ways to give nets tracks.
pub type TrackWays = List<NetTracks>;
