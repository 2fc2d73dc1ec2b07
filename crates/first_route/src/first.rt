ghost use Rattle.std.specs.Prelude.{◌≡◌, ◌≤◌, map, IfErr, IfOk, IsPermutation, IsSorted};
ghost use Rattle.channel_route.specs.Graph.{trunk_of};
ghost use Rattle.channel_route.specs.Wires.{trunk_cmp};
ghost use Rattle.row_place.specs.Places.{IsPlacement};
ghost use Rattle.row_place.specs.Trunks.{HasPins};
ghost use Rattle.first_route.specs.declared.stop.FirstStop.TheVariants as because;
ghost use Rattle.first_route.specs.First.{HasNoRouting, IsFirstRouting};
ghost use Rattle.first_route.specs.Tries.{AreMore, WereMade};
ghost use Rattle.first_route.specs.Ways.{low_wire, net_wire};

use crate::FirstStop;
use crate::way::first_way;
use cell_num::{List, Pins};
use channel_route::{PlacedWire, Routing, Trunk, Wire, constraints, trunks_of, wires};
use row_place::Placement;
use std::alloc::{AllocError, Global};

// The trunks of wires, all on the lowest track, in order of net.
fn low_trunks(alloc: Global, wires: &[Wire]) -> Result<Vec<Trunk>, AllocError>
    ensures moved { IfOk result (λ trunks. IsPermutation (map trunk_of (map low_wire wires.now)) trunks.items) }
    ensures sorted { IfOk result (λ trunks. IsSorted trunk_cmp trunks.items) }
{
    let mut placed = Vec::new(alloc);
    for wire in wires {
        placed.push(PlacedWire {
            wire: *wire,
            track: 0,
        })?;
    }
    trunks_of(alloc, &placed)
}

// The wires of trunks, whose keys are the numbers of their nets.
fn net_wires(alloc: Global, trunks: &[Trunk]) -> Result<Vec<Wire>, AllocError>
    ensures { IfOk result (λ wires. wires.items ≡ map net_wire trunks.now) }
{
    let mut wires = Vec::new(alloc);
    for trunk in trunks {
        wires.push(Wire {
            left: trunk.left,
            key: trunk.net.0,
            right: trunk.right,
            net: trunk.net,
        })?;
    }
    Ok(wires)
}

// The trunks of wires on their tracks, in the order of the wires.
fn placed_trunks(alloc: Global, placed: &[PlacedWire]) -> Result<Vec<Trunk>, AllocError>
    ensures { IfOk result (λ trunks. trunks.items ≡ map trunk_of placed.now) }
{
    let mut trunks = Vec::new(alloc);
    for one in placed {
        trunks.push(Trunk {
            net: one.wire.net,
            left: one.wire.left,
            right: one.wire.right,
            track: one.track,
        })?;
    }
    Ok(trunks)
}

/// The first of the legal routings of a placement on N tracks: it has the lowest track for the first net, of
/// those of which this is true the lowest for the second one, and so on. The budget is of tries, each a trunk that is
/// put on a track; what is left of it is written back.
pub fn first_routing(
    alloc: Global,
    placement: &Placement,
    pins: &Pins,
    tracks: u32,
    budget: &mut u64,
) -> Result<Routing, FirstStop>
    requires placement { IsPlacement placement.now }
    requires pins { HasPins placement.now pins.now }
    ensures first { IfOk result (IsFirstRouting placement.now pins.now tracks) }
    ensures none { IfErr result (λ stop. stop ≡ because.None → HasNoRouting placement.now pins.now tracks) }
    // then all tries were made
    ensures tried { IfErr result (λ stop. stop ≡ because.None
        → WereMade placement.now pins.now tracks budget.old budget.new) }
    ensures fewer { budget.new ≤ budget.old }
    // a budget that is enough is never spent
    ensures more { IfErr result (λ stop. stop ≡ because.Spent → AreMore placement.now pins.now tracks budget.old) }
    ensures spent { IfErr result (λ stop. stop ≡ because.Spent → budget.new ≡ 0) }
{
    let wires = wires(alloc, placement, pins)?;
    let constraints = constraints(alloc, &wires, placement.nodes.as_slice())?;
    let trunks = low_trunks(alloc, &wires)?;
    let by_net = net_wires(alloc, &trunks)?;
    match first_way(alloc, &constraints, &by_net, tracks, budget) {
        Ok(placed) => {
            let trunks = placed_trunks(alloc, &placed)?;
            Ok(Routing {
                tracks,
                trunks: List::from_vec(trunks),
            })
        }
        Err(stop) => Err(stop),
    }
}
