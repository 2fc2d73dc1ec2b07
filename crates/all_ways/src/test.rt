ghost use Rattle.std.specs.Prelude.{◌↔◌, IsTrue, List};
ghost use Rattle.track_ways.specs.declared.track.NetTrack.{NetTrack as TrackOf};

use track_ways::NetTrack;

/// What is asked of tracks.
pub trait WayTest {
    /// What holds wherever it is asked.
    ghost ready: { Self → Type 0 };

    /// Which tracks pass.
    ghost passes: { Self → List TrackOf → Type 0 };

    /// Whether the tracks pass.
    fn is_passed(&self, way: &[NetTrack]) -> bool
        requires ready { ready self.now }
        ensures { IsTrue result ↔ passes self.now way.now };
}
