ghost use Rattle.std.specs.Prelude.{◌≡◌, ◌≤◌, Err, map, length, IfOk, IfErr, List};
ghost use Rattle.row_place.specs.Places.{IsPlacement};
ghost use Rattle.row_place.specs.Trunks.{HasPins};
ghost use Rattle.channel_route.specs.declared.routing.WireAbove.{WireAbove as Entry};
ghost use Rattle.channel_route.specs.declared.routing.Routing.{Routing as Trunks};
ghost use Rattle.channel_route.specs.Cycle.{HasNoCycle};
ghost use Rattle.channel_route.specs.Routing.{IsLegal, IsDensity, HasNoAbove};
ghost use Rattle.dogleg_route.specs.declared.piece.PieceStop.TheVariants.{Cycle as CycleOf};
ghost use Rattle.dogleg_route.specs.Cuts.{entry_of};
ghost use Rattle.dogleg_route.specs.PieceCycles.{HasNoPieceCycle, IsPieceCause};
ghost use Rattle.dogleg_route.specs.PieceTold.{TellsPieces};
ghost use Rattle.dogleg_route.specs.PieceWires.{ArePieceWires};
ghost use Rattle.dogleg_route.specs.Routings.{ArePiecesLegal, ArePiecesTight};

use crate::cut::{cut_all, numbered, sort};
use crate::{PieceAbove, PieceCycle, PieceRouting, PieceStop};
use cell_num::{List, Pins};
use channel_route::{
    Filled, MOST_WIRES, Step, Wire, constraints, fill, find_cycle, trunks_of, wires,
};
use row_place::Placement;
use std::alloc::{AllocError, Global};

fn entries_of(alloc: Global, cycle: &[Step]) -> Result<PieceCycle, AllocError>
    ensures { IfOk result (λ entries. entries ≡ map entry_of cycle.now) }
{
    let mut entries = Vec::new(alloc);
    for step in cycle {
        entries.push(PieceAbove {
            net: step.wire.net,
            left: step.wire.left,
            line: step.line,
        })?;
    }
    Ok(List::from_vec(entries))
}

/// The pieces of a placement as wires, whose keys are their places in order of first line, last line and net.
pub fn piece_wires(
    alloc: Global,
    placement: &Placement,
    pins: &Pins,
) -> Result<Vec<Wire>, AllocError>
    requires placement { IsPlacement placement.now }
    requires pins { HasPins placement.now pins.now }
    ensures wires { IfOk result (λ wires. ArePieceWires placement.now pins.now wires.items) }
    ensures few { IfOk result (λ wires. length wires.items ≤ MOST_WIRES) }
{
    let trunks = wires(alloc, placement, pins)?;
    let mut stretches = cut_all(alloc, &trunks, placement.nodes.as_slice())?;
    sort(&mut stretches);
    Ok(numbered(alloc, &stretches)?)
}

/// Routes the channel between the rows of a placement in pieces, where each pin other than the rails has a place:
/// the trunk of each net is cut at the node lines of the net between its first and its last one. Each piece
/// is on the least track that the pieces below it and the pieces of other nets before it allow. `Cycle` is
/// reported exactly where no routing of pieces is legal; of several cycles it is the one below the first piece that can
/// not be placed, written from its first piece on, by first line, last line and net.
pub fn route_pieces(
    alloc: Global,
    placement: &Placement,
    pins: &Pins,
) -> Result<PieceRouting, PieceStop>
    requires placement { IsPlacement placement.now }
    requires pins { HasPins placement.now pins.now }
    ensures legal { IfOk result (ArePiecesLegal placement.now pins.now) }
    ensures tight { IfOk result (ArePiecesTight placement.now pins.now) }
    // where no net is above another, the tracks are as many as trunks hold one line
    ensures density { IfOk result (λ routing. HasNoAbove placement.now pins.now → (q : Trunks)
        → IsLegal placement.now pins.now q → IsDensity q.trunks routing.tracks) }
    ensures acyclic { IfOk result (λ routing. HasNoPieceCycle placement.now pins.now) }
    ensures cause { IfErr result (IsPieceCause placement.now pins.now) }
    ensures told { IfErr result (TellsPieces placement.now pins.now) }
    // it comes only where the trunks have a cycle too
    ensures fewer { (c : List Entry) → result ≡ Err (CycleOf c) → HasNoCycle placement.now pins.now → ⊥ }
{
    let wires = piece_wires(alloc, placement, pins)?;
    let constraints = constraints(alloc, &wires, placement.nodes.as_slice())?;
    match fill(alloc, wires, &constraints)? {
        Filled::Done(placed, tracks) => {
            let pieces = trunks_of(alloc, &placed)?;
            Ok(PieceRouting {
                tracks,
                pieces: List::from_vec(pieces),
            })
        }
        Filled::Stuck(left) => {
            let cycle = find_cycle(alloc, &left, &constraints, left[0])?;
            Err(PieceStop::Cycle(entries_of(alloc, &cycle)?))
        }
    }
}
