use crate::line_ways::tracks_out;
use cell_num::{NoMemory, Pins};
use row_trails::NETS;
use std::alloc::Global;
use track_ways::{Line, NetTrack, TrackRule, TrackWays};

/// Each net may change its track at a line at which it has a node place.
#[derive(Clone, Copy, Debug)]
pub struct Turning;

impl TrackRule for Turning {
    ghost use Rattle.piece_lines.specs.Lines.{PieceLineFits};
    ghost use Rattle.piece_ways.specs.PieceWays.{piece_line_ways};
    ghost use Rattle.piece_ways.specs.TurningLaw.{turning_rule};

    ghost fits = { PieceLineFits };

    ghost ways = { piece_line_ways };

    ghost is_rule = { turning_rule };

    fn tracks_at(
        alloc: Global,
        pins: &Pins,
        limit: u32,
        nets: u32,
        before: &[bool; NETS],
        line: &Line,
        rest: &[Line],
        behind: &[bool; NETS],
        tracks: Vec<NetTrack>,
    ) -> Result<TrackWays, NoMemory> {
        tracks_out(alloc, pins, limit, nets, before, line, rest, behind, tracks)
    }
}
