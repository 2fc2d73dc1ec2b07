ghost use Rattle.std.specs.Prelude.{◌||◌, IfOk};
ghost use Rattle.track_ways.specs.Lines.{is_ahead};
ghost use Rattle.track_ways.specs.Tables.{marked};
ghost use Rattle.track_ways.specs.Ways.{line_ways};
ghost use Rattle.all_ways.specs.Splits.{SplitsAt};

use crate::Splitting;
use cell_num::{NetNo, NoMemory, Pins};
use row_trails::NETS;
use std::alloc::Global;
use track_ways::{Line, NetTrack, Straight, missing_nets};

// As many nets get their tracks in a list.
const FEW: usize = 2;

// The nets without a track, where there are more than a few.
fn many_missing(
    alloc: Global,
    pins: &Pins,
    nets: u32,
    before: &[bool; NETS],
    line: &Line,
    rest: &[Line],
    behind: &[bool; NETS],
    tracks: &[NetTrack],
) -> Result<Vec<NetNo>, NoMemory>
    ensures { IfOk result (λ split. SplitsAt line_ways pins.now nets (marked before.now) line.now
        (λ n. is_ahead rest.now n || marked behind.now n) tracks.now split.items) }
{
    let missing = missing_nets(alloc, pins, nets, before, line, rest, behind, tracks)?;
    if missing.len() <= FEW {
        return Ok(Vec::new(alloc));
    }
    Ok(missing)
}

impl Splitting for Straight {
    ghost use Rattle.all_ways.specs.StraightSplits.{straight_unfit};

    ghost unfit = { straight_unfit };

    fn split_nets(
        alloc: Global,
        pins: &Pins,
        nets: u32,
        before: &[bool; NETS],
        line: &Line,
        rest: &[Line],
        behind: &[bool; NETS],
        tracks: &[NetTrack],
    ) -> Result<Vec<NetNo>, NoMemory> {
        many_missing(alloc, pins, nets, before, line, rest, behind, tracks)
    }
}
