// Whether the wires that are left may still find their tracks.

ghost use Rattle.std.specs.Prelude.{◌≡◌, ◌≤◌, length};
ghost use Rattle.std.specs.List.{list_all};
ghost use Rattle.first_route.specs.Ways.{empty_tracks, has_track, is_open, is_used};

use crate::fit::{fits, on_track};
use channel_route::{Constraint, PlacedWire, Wire};

fn is_used(placed: &[PlacedWire], track: u32) -> bool
    ensures { result ≡ is_used placed.now track }
{
    placed.iter().any(|one| one.track == track)
}

fn empty_tracks(tracks: u32, placed: &[PlacedWire]) -> u32
    ensures { result ≡ empty_tracks tracks placed.now }
{
    let mut empty = 0;
    for track in 0..tracks {
        if !is_used(placed, track) {
            empty += 1;
        }
    }
    empty
}

fn has_track(constraints: &[Constraint], tracks: u32, placed: &[PlacedWire], wire: &Wire) -> bool
    ensures { result ≡ has_track constraints.now tracks placed.now wire.now }
{
    (0..tracks).any(|track| fits(constraints, placed, &on_track(wire, track)))
}

fn have_tracks(
    constraints: &[Constraint],
    tracks: u32,
    placed: &[PlacedWire],
    left: &[Wire],
) -> bool
    ensures { result ≡ list_all (has_track constraints.now tracks placed.now) left.now }
{
    left.iter()
        .all(|wire| has_track(constraints, tracks, placed, wire))
}

/// Whether the wires that are left can fill the empty tracks, and each of them fits on some track.
pub(crate) fn is_open(
    constraints: &[Constraint],
    tracks: u32,
    placed: &[PlacedWire],
    left: &[Wire],
) -> bool
    ensures { result ≡ is_open constraints.now tracks placed.now left.now }
{
    empty_tracks(tracks, placed) as usize <= left.len()
        && have_tracks(constraints, tracks, placed, left)
}
