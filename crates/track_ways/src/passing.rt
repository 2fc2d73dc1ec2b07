// The tracks after some lines.
ghost use Rattle.std.specs.Prelude.{◌≡◌, ◌++◌, IfOk, OnOk};
ghost use Rattle.std.specs.List.{All};
ghost use Rattle.track_ways.specs.Tables.{HasEntries, marked};
ghost use Rattle.track_ways.specs.Ways.{nets_below, pass_ways_by};

use crate::line::Line;
use crate::line_ways::open_tracks;
use crate::rule::TrackRule;
use crate::table::with_line;
use crate::{NetTrack, TrackWays};
use cell_num::{List, NoMemory, Pins};
use row_trails::NETS;
use std::alloc::Global;

// Adds each way of the tracks through the lines, of which `before` and `behind` have the nets with a place before and
// after them.
fn add_ways<R: TrackRule>(
    alloc: Global,
    pins: &Pins,
    limit: u32,
    nets: u32,
    before: &[bool; NETS],
    lines: &[Line],
    behind: &[bool; NETS],
    tracks: &[NetTrack],
    ways: &mut TrackWays,
) -> Result<(), NoMemory>
    requires { All (HasEntries 256) lines.now }
    ensures { OnOk result (ways.new ≡ ways.old ++ pass_ways_by R.ways pins.now limit (nets_below nets)
        (marked before.now) lines.now (marked behind.now) tracks.now) }
{
    let kept = open_tracks(alloc, pins, before, lines, behind, tracks)?;
    let Some((line, rest)) = lines.split_first() else {
        ways.push(List::from_vec(kept))?;
        return Ok(());
    };
    let here = R::tracks_at(alloc, pins, limit, nets, before, line, rest, behind, kept)?;
    let after = with_line(before, line);
    for way in here.as_slice() {
        add_ways::<R>(
            alloc,
            pins,
            limit,
            nets,
            &after,
            rest,
            behind,
            way.as_slice(),
            ways,
        )?;
    }
    Ok(())
}

/// All tracks after some lines that go on from these by the rule, line by line: of the nets numbered below `nets`, and
/// below the limit. `before` and `behind` have the nets with a place before and after the lines, by number.
pub fn ways_through<R: TrackRule>(
    alloc: Global,
    pins: &Pins,
    limit: u32,
    nets: u32,
    before: &[bool; NETS],
    lines: &[Line],
    behind: &[bool; NETS],
    tracks: &[NetTrack],
) -> Result<TrackWays, NoMemory>
    requires { All (HasEntries 256) lines.now }
    ensures { IfOk result (λ ways. ways ≡ pass_ways_by R.ways pins.now limit (nets_below nets)
        (marked before.now) lines.now (marked behind.now) tracks.now) }
{
    let mut ways = TrackWays::new(alloc);
    add_ways::<R>(
        alloc, pins, limit, nets, before, lines, behind, tracks, &mut ways,
    )?;
    Ok(ways)
}
