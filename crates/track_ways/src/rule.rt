ghost use Rattle.std.specs.Prelude.{◌≡◌, ◌||◌, IfOk};
ghost use Rattle.track_ways.specs.Lines.{LineRule, is_ahead};
ghost use Rattle.track_ways.specs.Rules.{IsRule};
ghost use Rattle.track_ways.specs.Tables.{marked};
ghost use Rattle.track_ways.specs.Ways.{LineWays, nets_below};

use crate::line::Line;
use crate::line_ways::straight_at;
use crate::{NetTrack, TrackWays};
use cell_num::{NoMemory, Pins};
use row_trails::NETS;
use std::alloc::Global;

/// A rule of how the tracks of nets go through a line. The tracks after a next column, and after the last line, are
/// listed by it.
pub trait TrackRule {
    /// What the rule asks of the tracks before a line and of those at it or after it.
    ghost fits: { LineRule };

    /// The tracks at a line or after it, as a list.
    ghost ways: { LineWays };

    /// All tracks at a line or after it that go on from these, below the limit: of the nets numbered below `nets`.
    /// `before` has the nets with a place before the line, `behind` those with one after the rest of the lines.
    fn tracks_at(
        alloc: Global,
        pins: &Pins,
        limit: u32,
        nets: u32,
        before: &[bool; NETS],
        line: &Line,
        rest: &[Line],
        behind: &[bool; NETS],
        tracks: Vec<NetTrack>,
    ) -> Result<TrackWays, NoMemory>
        ensures { IfOk result (λ list. list ≡ ways pins.now limit (nets_below nets) (marked before.now) line.now
            (λ n. is_ahead rest.now n || marked behind.now n) tracks.items) };

    /// The lists are exactly the tracks that the rule lets through.
    ghost is_rule: { IsRule fits ways };
}

/// Each net keeps its track through all lines.
#[derive(Clone, Copy, Debug)]
pub struct Straight;

impl TrackRule for Straight {
    ghost use Rattle.track_ways.specs.Lines.{StraightFits};
    ghost use Rattle.track_ways.specs.StraightLaw.{straight_rule};
    ghost use Rattle.track_ways.specs.Ways.{line_ways};

    ghost fits = { StraightFits };

    ghost ways = { line_ways };

    ghost is_rule = { straight_rule };

    fn tracks_at(
        alloc: Global,
        pins: &Pins,
        limit: u32,
        nets: u32,
        before: &[bool; NETS],
        line: &Line,
        rest: &[Line],
        behind: &[bool; NETS],
        tracks: Vec<NetTrack>,
    ) -> Result<TrackWays, NoMemory> {
        straight_at(alloc, pins, limit, nets, before, line, rest, behind, tracks)
    }
}
