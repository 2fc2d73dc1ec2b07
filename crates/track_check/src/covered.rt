// Tracks that an earlier lemma is about.
ghost use Rattle.std.specs.Prelude.{Any};
ghost use Rattle.track_ways.specs.Checked.{CoversListed};
ghost use Rattle.track_check.specs.Noted.{AreNotedAt};

use crate::NotedLemmas;
use all_ways::WayTest;
use row_state::Numbered;
use track_ways::NetTrack;

// Asks whether one of the earlier lemmas is about the state, as many gaps or more, and tracks that the way has.
#[derive(Clone, Copy)]
pub(crate) struct Covered<'a> {
    pub earlier: NotedLemmas<'a>,
    pub at: &'a Numbered,
    pub gaps: u32,
}

impl WayTest for Covered<'_> {
    ghost ready = { λ test. AreNotedAt test.earlier.lemmas.now test.earlier.places.now test.at.now };

    ghost passes = { λ test way. Any (CoversListed test.at.now.state test.gaps way) test.earlier.lemmas.now };

    fn is_passed(&self, way: &[NetTrack]) -> bool {
        self.earlier.covers(self.at, self.gaps, way)
    }
}
