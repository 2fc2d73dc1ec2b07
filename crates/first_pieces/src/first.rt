ghost use Rattle.std.specs.Prelude.{◌≡◌, ◌≤◌, IfErr, IfOk};
ghost use Rattle.row_place.specs.Places.{IsPlacement};
ghost use Rattle.row_place.specs.Trunks.{HasPins};
ghost use Rattle.first_route.specs.declared.stop.FirstStop.TheVariants as because;
ghost use Rattle.first_pieces.specs.First.{HasNoPieces, IsFirstPieces};
ghost use Rattle.first_pieces.specs.Tries.{AreMorePieceTries, WerePieceTriesMade};

use cell_num::{List, Pins};
use channel_route::{constraints, trunks_of};
use dogleg_route::{PieceRouting, piece_wires};
use first_route::{FirstStop, first_way};
use row_place::Placement;
use std::alloc::Global;

/// The first of the legal routings by pieces of a placement on N tracks. The tracks of pieces are compared in order of
/// first line, last line, net: the first piece is on the lowest track, of the routings of which this is true the
/// second one is on the lowest, and so on. The budget is of tries, each a piece that is put on a track; what is left of
/// it is written back.
pub fn first_pieces(
    alloc: Global,
    placement: &Placement,
    pins: &Pins,
    tracks: u32,
    budget: &mut u64,
) -> Result<PieceRouting, FirstStop>
    requires placement { IsPlacement placement.now }
    requires pins { HasPins placement.now pins.now }
    ensures first { IfOk result (IsFirstPieces placement.now pins.now tracks) }
    ensures none { IfErr result (λ stop. stop ≡ because.None → HasNoPieces placement.now pins.now tracks) }
    // then all tries were made
    ensures tried { IfErr result (λ stop. stop ≡ because.None
        → WerePieceTriesMade placement.now pins.now tracks budget.old budget.new) }
    ensures fewer { budget.new ≤ budget.old }
    // a budget that is enough is never spent
    ensures more { IfErr result (λ stop. stop ≡ because.Spent
        → AreMorePieceTries placement.now pins.now tracks budget.old) }
    ensures spent { IfErr result (λ stop. stop ≡ because.Spent → budget.new ≡ 0) }
{
    let wires = piece_wires(alloc, placement, pins)?;
    let constraints = constraints(alloc, &wires, placement.nodes.as_slice())?;
    match first_way(alloc, &constraints, &wires, tracks, budget) {
        Ok(placed) => {
            let pieces = trunks_of(alloc, &placed)?;
            Ok(PieceRouting {
                tracks,
                pieces: List::from_vec(pieces),
            })
        }
        Err(stop) => Err(stop),
    }
}
