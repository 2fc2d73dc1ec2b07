ghost use Rattle.std.specs.Prelude.{IfOk, IfErr};
ghost use Rattle.row_place.specs.Places.{IsPlacement};
ghost use Rattle.row_place.specs.Trunks.{HasPins};
ghost use Rattle.cell_make.specs.Channel.{TellsRing};
ghost use Rattle.cell_make.specs.Style.{AreLegal, AreTight, HasNoRing};

use cell_inputs::Wiring;
use cell_num::Pins;
use channel_route::{Ring, RouteStop, Routing, route};
use dogleg_route::{PieceStop, route_pieces};
use row_place::Placement;
use std::alloc::Global;

/// Why a channel is not routed.
#[derive(Drop)]
pub enum ChannelStop {
    Ring(Ring),
    NoMemory,
}

/// Routes the channel of a placement by this wiring.
#[tactic(auto, using(crate::proofs::Rules::route_by_rules))]
pub fn route_by(
    alloc: Global,
    wiring: Wiring,
    placement: &Placement,
    pins: &Pins,
) -> Result<Routing, ChannelStop>
    requires placement { IsPlacement placement.now }
    requires pins { HasPins placement.now pins.now }
    ensures legal { IfOk result (AreLegal wiring placement.now pins.now) }
    ensures tight { IfOk result (AreTight wiring placement.now pins.now) }
    ensures acyclic { IfOk result (λ routing. HasNoRing wiring placement.now pins.now) }
    ensures told { IfErr result (TellsRing wiring placement.now pins.now) }
{
    match wiring {
        Wiring::Straight => match route(alloc, placement, pins) {
            Ok(routing) => Ok(routing),
            Err(RouteStop::Cycle(cycle)) => Err(ChannelStop::Ring(Ring::OfNets(cycle))),
            Err(RouteStop::NoMemory) => Err(ChannelStop::NoMemory),
        },
        Wiring::Doglegs => match route_pieces(alloc, placement, pins) {
            Ok(routing) => Ok(Routing {
                tracks: routing.tracks,
                trunks: routing.pieces,
            }),
            Err(PieceStop::Cycle(cycle)) => Err(ChannelStop::Ring(Ring::OfPieces(cycle))),
            Err(PieceStop::NoMemory) => Err(ChannelStop::NoMemory),
        },
    }
}
