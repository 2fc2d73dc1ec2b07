// The tracks out of a line, from those of the nets that are open before it.
ghost use Rattle.std.specs.Prelude.{◌≡◌, ◌++◌, ◌||◌, [], filter, true, IfOk, OnOk};
ghost use Rattle.std.specs.List.{flat_map};
ghost use Rattle.track_ways.specs.Lines.{is_ahead};
ghost use Rattle.track_ways.specs.Tables.{marked};
ghost use Rattle.track_ways.specs.Ways.{nets_below, test_beside};
ghost use Rattle.piece_lines.specs.Lines.{may_turn};
ghost use Rattle.piece_ways.specs.PieceWays.{goes_on, into_ways, out_ways, piece_line_ways, straight_of};

use cell_num::{NetNo, NoMemory, Pins};
use row_trails::NETS;
use std::alloc::{AllocError, Global};
use track_ways::{
    Line, NetTrack, TrackWays, add_beside, do_fit, is_marked, is_net, is_open, missing_nets,
};

// Whether the net has a node place at the line.
fn may_turn(line: &Line, net: NetNo) -> bool
    ensures { result ≡ may_turn line.now net }
{
    is_net(&line.p, net) || is_net(&line.n, net)
}

// The nets that are in the table.
fn marked_nets(
    alloc: Global,
    table: &[bool; NETS],
    nets: &[NetNo],
) -> Result<Vec<NetNo>, AllocError>
    ensures { IfOk result (λ v. v.items ≡ filter (marked table.now) nets.now) }
{
    nets.iter()
        .copied()
        .filter(|net| is_marked(table, *net))
        .collect(alloc)
}

// The nets with a piece that goes on from the line before the rest of the lines.
fn further_nets(
    alloc: Global,
    pins: &Pins,
    before: &[bool; NETS],
    rest: &[Line],
    after: &[bool; NETS],
    nets: &[NetNo],
) -> Result<Vec<NetNo>, AllocError>
    ensures { IfOk result (λ v. v.items ≡ filter (goes_on pins.now (marked before.now)
        (λ n. is_ahead rest.now n || marked after.now n)) nets.now) }
{
    nets.iter()
        .copied()
        .filter(|net| !is_marked(before, *net) || is_open(pins, before, rest, after, *net))
        .collect(alloc)
}

// The tracks of the nets that go straight through the line before the rest of the lines.
fn straight_tracks(
    alloc: Global,
    pins: &Pins,
    before: &[bool; NETS],
    line: &Line,
    rest: &[Line],
    after: &[bool; NETS],
    tracks: &[NetTrack],
) -> Result<Vec<NetTrack>, AllocError>
    ensures { IfOk result (λ kept. kept.items ≡ straight_of pins.now (marked before.now) line.now
        (λ n. is_ahead rest.now n || marked after.now n) tracks.now) }
{
    tracks
        .iter()
        .copied()
        .filter(|t| is_open(pins, before, rest, after, t.net) && !may_turn(line, t.net))
        .collect(alloc)
}

// The tracks into the line before the rest of the lines, where these are listed.
fn tracks_into(
    alloc: Global,
    pins: &Pins,
    limit: u32,
    nets: u32,
    before: &[bool; NETS],
    line: &Line,
    rest: &[Line],
    after: &[bool; NETS],
    tracks: Vec<NetTrack>,
) -> Result<TrackWays, NoMemory>
    ensures { IfOk result (λ ways. ways ≡ into_ways pins.now limit (nets_below nets) (marked before.now) line.now
        (λ n. is_ahead rest.now n || marked after.now n) tracks.items) }
{
    let mut ways = TrackWays::new(alloc);
    if !do_fit(limit, line, &tracks) {
        return Ok(ways);
    }
    let missing = missing_nets(alloc, pins, nets, before, line, rest, after, &tracks)?;
    let earlier = marked_nets(alloc, before, &missing)?;
    add_beside(alloc, limit, line, &[], &earlier, tracks, &mut ways)?;
    Ok(ways)
}

// Adds the tracks out of the line before the rest of the lines, from those into it.
fn add_out(
    alloc: Global,
    pins: &Pins,
    limit: u32,
    nets: u32,
    before: &[bool; NETS],
    line: &Line,
    rest: &[Line],
    after: &[bool; NETS],
    into: &[NetTrack],
    ways: &mut TrackWays,
) -> Result<(), NoMemory>
    requires fit { test_beside limit line.now [] into.now ≡ true }
    ensures { OnOk result (ways.new ≡ ways.old
        ++ out_ways pins.now limit (nets_below nets) (marked before.now) line.now
        (λ n. is_ahead rest.now n || marked after.now n) into.now) }
{
    let kept = straight_tracks(alloc, pins, before, line, rest, after, into)?;
    let missing = missing_nets(alloc, pins, nets, before, line, rest, after, &kept)?;
    let further = further_nets(alloc, pins, before, rest, after, &missing)?;
    add_beside(alloc, limit, line, into, &further, kept, ways)?;
    Ok(())
}

/// The tracks out of the line before the rest of the lines that go on from these.
pub(crate) fn tracks_out(
    alloc: Global,
    pins: &Pins,
    limit: u32,
    nets: u32,
    before: &[bool; NETS],
    line: &Line,
    rest: &[Line],
    after: &[bool; NETS],
    tracks: Vec<NetTrack>,
) -> Result<TrackWays, NoMemory>
    ensures { IfOk result (λ ways. ways ≡ piece_line_ways pins.now limit (nets_below nets) (marked before.now) line.now
        (λ n. is_ahead rest.now n || marked after.now n) tracks.items) }
{
    let mut ways = TrackWays::new(alloc);
    let here = tracks_into(alloc, pins, limit, nets, before, line, rest, after, tracks)?;
    for into in here.as_slice() {
        add_out(
            alloc,
            pins,
            limit,
            nets,
            before,
            line,
            rest,
            after,
            into.as_slice(),
            &mut ways,
        )?;
    }
    Ok(ways)
}
