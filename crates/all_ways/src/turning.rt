ghost use Rattle.std.specs.Prelude.{◌≡◌, ◌||◌, IfOk, filter};
ghost use Rattle.track_ways.specs.Lines.{is_ahead};
ghost use Rattle.track_ways.specs.Tables.{marked};
ghost use Rattle.piece_ways.specs.PieceWays.{piece_line_ways};
ghost use Rattle.all_ways.specs.Splits.{SplitsAt};

use crate::Splitting;
use cell_num::{NetNo, NoMemory, Pins};
use piece_ways::Turning;
use row_trails::NETS;
use std::alloc::{AllocError, Global};
use track_ways::{Line, NetTrack, is_marked, missing_nets};

// The nets that are in the table.
fn marked_nets(
    alloc: Global,
    table: &[bool; NETS],
    nets: &[NetNo],
) -> Result<Vec<NetNo>, AllocError>
    ensures { IfOk result (λ v. v.items ≡ filter (marked table.now) nets.now) }
{
    nets.iter()
        .copied()
        .filter(|net| is_marked(table, *net))
        .collect(alloc)
}

// The nets with a place before the line that have no track into it.
fn missing_into(
    alloc: Global,
    pins: &Pins,
    nets: u32,
    before: &[bool; NETS],
    line: &Line,
    rest: &[Line],
    behind: &[bool; NETS],
    tracks: &[NetTrack],
) -> Result<Vec<NetNo>, NoMemory>
    ensures { IfOk result (λ split. SplitsAt piece_line_ways pins.now nets (marked before.now) line.now
        (λ n. is_ahead rest.now n || marked behind.now n) tracks.now split.items) }
{
    let missing = missing_nets(alloc, pins, nets, before, line, rest, behind, tracks)?;
    let earlier = marked_nets(alloc, before, &missing)?;
    Ok(earlier)
}

impl Splitting for Turning {
    ghost use Rattle.all_ways.specs.TurningSplits.{turning_unfit};

    ghost unfit = { turning_unfit };

    fn split_nets(
        alloc: Global,
        pins: &Pins,
        nets: u32,
        before: &[bool; NETS],
        line: &Line,
        rest: &[Line],
        behind: &[bool; NETS],
        tracks: &[NetTrack],
    ) -> Result<Vec<NetNo>, NoMemory> {
        missing_into(alloc, pins, nets, before, line, rest, behind, tracks)
    }
}
