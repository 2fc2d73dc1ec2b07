// Whether all tracks after some lines pass a test.
ghost use Rattle.std.specs.Prelude.{◌≡◌, ◌≤◌, ◌↔◌, ◌||◌, All, IfOk, IsTrue, length};
ghost use Rattle.track_ways.specs.Lines.{is_ahead};
ghost use Rattle.track_ways.specs.Tables.{HasEntries, marked};
ghost use Rattle.track_ways.specs.Ways.{nets_below, pass_ways_by};
ghost use Rattle.all_ways.specs.Onward.{AllOnward, SplitsOnward, fit_first};

use crate::{Splitting, WayTest};
use cell_num::{NetNo, NoMemory, Pins};
use row_trails::NETS;
use std::alloc::Global;
use track_ways::{Line, NetTrack, TrackWays, do_fit, open_tracks, with_line, with_track};

// What is asked of the tracks after some lines, and which there are.
#[derive(Clone, Copy)]
struct Task<'a, T> {
    alloc: Global,
    pins: &'a Pins,
    /// Tracks are numbered below it.
    limit: u32,
    /// Nets are numbered below it.
    nets: u32,
    /// The nets with a place after the lines.
    behind: &'a [bool; NETS],
    test: &'a T,
}

fn fit_first(limit: u32, lines: &[Line], tracks: &[NetTrack]) -> bool
    ensures { result ≡ fit_first limit lines.now tracks.now }
{
    match lines.split_first() {
        Some((line, _)) => do_fit(limit, line, tracks),
        None => true,
    }
}

// The nets that get their tracks one by one at the first line.
fn split<R: Splitting, T: WayTest>(
    task: &Task<T>,
    before: &[bool; NETS],
    lines: &[Line],
    tracks: &[NetTrack],
) -> Result<Vec<NetNo>, NoMemory>
    ensures { IfOk result (λ split. SplitsOnward R.ways task.now.pins.now task.now.nets task.now.limit
        (marked before.now) lines.now (marked task.now.behind.now) tracks.now split.items) }
{
    let Some((line, rest)) = lines.split_first() else {
        return Ok(Vec::new(task.alloc));
    };
    let split = R::split_nets(
        task.alloc,
        task.pins,
        task.nets,
        before,
        line,
        rest,
        task.behind,
        tracks,
    )?;
    Ok(split)
}

// The tracks at the line, before the rest of the lines.
fn tracks_at<R: Splitting, T: WayTest>(
    task: &Task<T>,
    before: &[bool; NETS],
    line: &Line,
    rest: &[Line],
    tracks: Vec<NetTrack>,
) -> Result<TrackWays, NoMemory>
    ensures { IfOk result (λ list. list ≡ R.ways task.now.pins.now task.now.limit (nets_below task.now.nets)
        (marked before.now) line.now (λ n. is_ahead rest.now n || marked task.now.behind.now n) tracks.items) }
{
    R::tracks_at(
        task.alloc,
        task.pins,
        task.limit,
        task.nets,
        before,
        line,
        rest,
        task.behind,
        tracks,
    )
}

// Whether all tracks after the lines pass, whatever tracks `nets` get beside these. `before` has the nets with a place
// before the lines.
fn all_onward<R: Splitting, T: WayTest>(
    task: &Task<T>,
    before: &[bool; NETS],
    lines: &[Line],
    nets: &[NetNo],
    tracks: Vec<NetTrack>,
) -> Result<bool, NoMemory>
    requires ready { T.ready task.now.test.now }
    requires lines { All (HasEntries 256) lines.now }
    requires few { length nets.now ≤ task.now.nets }
    ensures { IfOk result (λ yes. IsTrue yes ↔ AllOnward (T.passes task.now.test.now) R.ways task.now.pins.now
        task.now.limit (nets_below task.now.nets) (marked before.now) lines.now (marked task.now.behind.now) nets.now
        tracks.items) }
{
    if let Some((net, others)) = nets.split_first() {
        for track in 0..task.limit {
            let longer = with_track(task.alloc, NetTrack { net: *net, track }, &tracks)?;
            if !fit_first(task.limit, lines, &longer) {
                continue;
            }
            if !all_onward::<R, T>(task, before, lines, others, longer)? {
                return Ok(false);
            }
        }
        return Ok(true);
    }
    let Some((line, rest)) = lines.split_first() else {
        return Ok(task.test.is_passed(&tracks));
    };
    let here = tracks_at::<R, T>(task, before, line, rest, tracks)?;
    let after = with_line(before, line);
    for way in here.as_slice() {
        let kept = open_tracks(
            task.alloc,
            task.pins,
            &after,
            rest,
            task.behind,
            way.as_slice(),
        )?;
        let split = split::<R, T>(task, &after, rest, &kept)?;
        if !all_onward::<R, T>(task, &after, rest, &split, kept)? {
            return Ok(false);
        }
    }
    Ok(true)
}

/// Whether all tracks after some lines that go on from these by the rule, below the limit, pass the test: of the nets
/// numbered below `nets`. `before` and `behind` have the nets with a place before and after the lines.
pub fn all_through<R: Splitting, T: WayTest>(
    alloc: Global,
    pins: &Pins,
    limit: u32,
    nets: u32,
    before: &[bool; NETS],
    lines: &[Line],
    behind: &[bool; NETS],
    tracks: &[NetTrack],
    test: &T,
) -> Result<bool, NoMemory>
    requires ready { T.ready test.now }
    requires lines { All (HasEntries 256) lines.now }
    ensures { IfOk result (λ yes. IsTrue yes ↔ All (T.passes test.now) (pass_ways_by R.ways pins.now limit
        (nets_below nets) (marked before.now) lines.now (marked behind.now) tracks.now)) }
{
    let task = Task {
        alloc,
        pins,
        limit,
        nets,
        behind,
        test,
    };
    let kept = open_tracks(alloc, pins, before, lines, behind, tracks)?;
    let split = split::<R, T>(&task, before, lines, &kept)?;
    let all = all_onward::<R, T>(&task, before, lines, &split, kept)?;
    Ok(all)
}
