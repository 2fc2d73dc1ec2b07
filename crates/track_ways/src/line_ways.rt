// The parts of a list of tracks at a line, and that list where nets go straight.
ghost use Rattle.std.specs.Prelude.{◌≡◌, ◌∷◌, ◌++◌, ◌||◌, true, IfOk, OnOk};
ghost use Rattle.track_ways.specs.Lines.{is_ahead};
ghost use Rattle.track_ways.specs.Tables.{marked};
ghost use Rattle.track_ways.specs.Ways.{line_ways, missing, nets_below, open_of, test_beside, ways_beside};

use crate::fit::{do_fit, goes_with, is_listed};
use crate::held::{is_held, is_open};
use crate::line::Line;
use crate::{NetTrack, TrackWays};
use cell_num::{List, NetNo, NoMemory, Pins};
use row_trails::NETS;
use std::alloc::{AllocError, Global};

/// The tracks of the nets that are open before the lines.
pub fn open_tracks(
    alloc: Global,
    pins: &Pins,
    before: &[bool; NETS],
    lines: &[Line],
    behind: &[bool; NETS],
    tracks: &[NetTrack],
) -> Result<Vec<NetTrack>, AllocError>
    ensures { IfOk result (λ kept. kept.items ≡ open_of pins.now (marked before.now)
        (λ n. is_ahead lines.now n || marked behind.now n) tracks.now) }
{
    let mut kept = Vec::new(alloc);
    for t in tracks {
        if is_open(pins, before, lines, behind, t.net) {
            kept.push(*t)?;
        }
    }
    Ok(kept)
}

/// The nets below `nets` that hold the line before the rest of the lines and have no track yet, in ascending order.
pub fn missing_nets(
    alloc: Global,
    pins: &Pins,
    nets: u32,
    before: &[bool; NETS],
    line: &Line,
    rest: &[Line],
    behind: &[bool; NETS],
    tracks: &[NetTrack],
) -> Result<Vec<NetNo>, AllocError>
    ensures { IfOk result (λ v. v.items ≡ missing pins.now (marked before.now) line.now
        (λ n. is_ahead rest.now n || marked behind.now n) (nets_below nets) tracks.now) }
{
    (0..nets)
        .map(|n| NetNo(n))
        .filter(|net| is_held(pins, before, line, rest, behind, *net) && !is_listed(tracks, *net))
        .collect(alloc)
}

/// These tracks, and one of another net before them.
pub fn with_track(
    alloc: Global,
    here: NetTrack,
    tracks: &[NetTrack],
) -> Result<Vec<NetTrack>, AllocError>
    ensures { IfOk result (λ longer. longer.items ≡ here ∷ tracks.now) }
{
    let mut longer = Vec::with_capacity(alloc, tracks.len().saturating_add(1))?;
    longer.push(here)?;
    longer.extend_from_slice(tracks)?;
    Ok(longer)
}

/// Adds each way to give the nets tracks that fit the line beside the others, which are on its other side. A track that
/// doesn't go with those before it is dropped at once.
#[tactic(auto, using(crate::proofs::Listing::beside_more, crate::proofs::Listing::beside_whole))]
pub fn add_beside(
    alloc: Global,
    limit: u32,
    line: &Line,
    others: &[NetTrack],
    nets: &[NetNo],
    tracks: Vec<NetTrack>,
    ways: &mut TrackWays,
) -> Result<(), NoMemory>
    requires fit { test_beside limit line.now others.now tracks.items ≡ true }
    ensures { OnOk result (ways.new ≡ ways.old ++ ways_beside limit line.now others.now nets.now tracks.items) }
{
    let Some((net, rest)) = nets.split_first() else {
        ways.push(List::from_vec(tracks))?;
        return Ok(());
    };
    for track in 0..limit {
        let here = NetTrack { net: *net, track };
        if goes_with(line, &here, &tracks, others) {
            let longer = with_track(alloc, here, &tracks)?;
            add_beside(alloc, limit, line, others, rest, longer, ways)?;
        }
    }
    Ok(())
}

/// The tracks that fit the line and go on from those before it where nets go straight.
pub(crate) fn straight_at(
    alloc: Global,
    pins: &Pins,
    limit: u32,
    nets: u32,
    before: &[bool; NETS],
    line: &Line,
    rest: &[Line],
    behind: &[bool; NETS],
    tracks: Vec<NetTrack>,
) -> Result<TrackWays, NoMemory>
    ensures { IfOk result (λ ways. ways ≡ line_ways pins.now limit (nets_below nets) (marked before.now) line.now
        (λ n. is_ahead rest.now n || marked behind.now n) tracks.items) }
{
    let mut ways = TrackWays::new(alloc);
    if !do_fit(limit, line, &tracks) {
        return Ok(ways);
    }
    let missing = missing_nets(alloc, pins, nets, before, line, rest, behind, &tracks)?;
    add_beside(alloc, limit, line, &[], &missing, tracks, &mut ways)?;
    Ok(ways)
}
