ghost use Rattle.std.specs.Prelude.{◌≡◌, map, IfOk, IfErr, IsPermutation, IsSorted};
ghost use Rattle.row_place.specs.Places.{IsPlacement};
ghost use Rattle.row_place.specs.Trunks.{HasPins};
ghost use Rattle.channel_route.specs.Routing.{IsLegal, IsTight, IsDensity, HasNoAbove};
ghost use Rattle.channel_route.specs.Cycle.{HasNoCycle, IsCause};
ghost use Rattle.channel_route.specs.Told.{TellsCycle};
ghost use Rattle.channel_route.specs.Graph.{trunk_of};
ghost use Rattle.channel_route.specs.Turn.{above_of};
ghost use Rattle.channel_route.specs.Wires.{trunk_cmp};

use crate::constraint::constraints;
use crate::cycle::{Step, find_cycle};
use crate::sweep::{Filled, fill};
use crate::wire::{PlacedWire, wires};
use crate::{Above, CycleList, RouteStop, Routing, Trunk};
use cell_num::{List, Pins};
use row_place::Placement;
use std::alloc::{AllocError, Global};

fn sort(trunks: &mut Vec<Trunk>)
    ensures moved { IsPermutation trunks.old.items trunks.new.items }
    ensures sorted { IsSorted trunk_cmp trunks.new.items }
{
    trunks.sort_unstable();
}

/// The trunks of wires on their tracks, in order of net, then first line.
pub fn trunks_of(alloc: Global, placed: &[PlacedWire]) -> Result<Vec<Trunk>, AllocError>
    ensures moved { IfOk result (λ trunks. IsPermutation (map trunk_of placed.now) trunks.items) }
    ensures sorted { IfOk result (λ trunks. IsSorted trunk_cmp trunks.items) }
{
    let mut trunks = Vec::new(alloc);
    for one in placed {
        trunks.push(Trunk {
            net: one.wire.net,
            left: one.wire.left,
            right: one.wire.right,
            track: one.track,
        })?;
    }
    sort(&mut trunks);
    Ok(trunks)
}

fn nets_of(alloc: Global, cycle: &[Step]) -> Result<CycleList, AllocError>
    ensures { IfOk result (λ nets. nets ≡ map above_of cycle.now) }
{
    let mut nets = Vec::new(alloc);
    for step in cycle {
        nets.push(Above {
            net: step.wire.net,
            line: step.line,
        })?;
    }
    Ok(List::from_vec(nets))
}

/// Routes the channel between the rows of a placement, in which each pin other than the rails has a
/// place. Each trunk stands on the least track that the nets below it and the trunks before it allow.
/// Cycle comes exactly where no routing is legal; of several cycles it names the one below the first
/// net that can not be placed.
pub fn route(alloc: Global, placement: &Placement, pins: &Pins) -> Result<Routing, RouteStop>
    requires placement { IsPlacement placement.now }
    requires pins { HasPins placement.now pins.now }
    ensures legal { IfOk result (IsLegal placement.now pins.now) }
    ensures tight { IfOk result (IsTight placement.now pins.now) }
    // where no net stands above another, the tracks are as many as trunks cover one line
    ensures density { IfOk result (λ routing. HasNoAbove placement.now pins.now
        → IsDensity routing.trunks routing.tracks) }
    ensures acyclic { IfOk result (λ routing. HasNoCycle placement.now pins.now) }
    ensures cause { IfErr result (IsCause placement.now pins.now) }
    ensures told { IfErr result (TellsCycle placement.now pins.now) }
{
    let wires = wires(alloc, placement, pins)?;
    let constraints = constraints(alloc, &wires, placement.nodes.as_slice())?;
    match fill(alloc, wires, &constraints)? {
        Filled::Done(placed, tracks) => {
            let trunks = trunks_of(alloc, &placed)?;
            Ok(Routing {
                tracks,
                trunks: List::from_vec(trunks),
            })
        }
        Filled::Stuck(left) => {
            let cycle = find_cycle(alloc, &left, &constraints, left[0])?;
            Err(RouteStop::Cycle(nets_of(alloc, &cycle)?))
        }
    }
}
