ghost use Rattle.std.specs.Prelude.{◌≡◌, ◌<◌, ◌≤◌, All, IfNone, IfOk, IfSome};
ghost use Rattle.row_place.specs.Places.{IsPlacement, placement_of};
ghost use Rattle.row_place.specs.Trunks.{HasPins};
ghost use Rattle.dogleg_route.specs.Routings.{ArePiecesLegal};
ghost use Rattle.first_pieces.specs.First.{HasNoPieces, IsFirstPieces};
ghost use Rattle.first_pieces.specs.Tries.{AreMorePieceTries};
ghost use Rattle.track_log.specs.Fits.{LemmaFits};
ghost use Rattle.track_search.specs.FewestBy.{ProveBy};
ghost use Rattle.track_search.specs.Kept.{IsKeptWithinBy};
ghost use Rattle.track_search.specs.Lowest.{Arranges, HavePins};
ghost use Rattle.piece_lines.specs.Lines.{PieceLineFits};
ghost use Rattle.piece_search.specs.Lowest.{IfFound, IsFirstLowPieces, IsOpenPieces, TakePiecesAtLeast};
ghost use Rattle.piece_search.specs.Lowest.{lemmas_of, least_of};

use cell_num::{NoMemory, Pins};
use dogleg_route::PieceRouting;
use first_pieces::first_pieces;
use first_route::FirstStop;
use piece_ways::Turning;
use row_place::{Placement, place};
use row_state::{Kinds, RowBound};
use std::alloc::Global;
use track_search::{Fewest, fewest_tracks_by};
use track_ways::TrackLemmas;

/// What the search for the lowest row ends with, where nets may turn.
#[derive(Debug, Drop)]
pub enum LowestPieces {
    /// The first row on the fewest tracks, in its placement, and the first of its routings by pieces on these tracks.
    /// Where the tracks are some, the lemmas certify that no row has one track less.
    Found {
        placement: Placement,
        routing: PieceRouting,
        lemmas: TrackLemmas,
    },
    /// The budget of lemmas or of tries is spent, or no row has tracks below the most: each row takes at least that
    /// many tracks, which the lemmas certify where these are some.
    Open {
        proved: u32,
        lemmas: TrackLemmas,
    },
}

// The first routing by pieces on as many tracks as the row takes, or none where the tries are spent.
fn pieces_on(
    alloc: Global,
    placement: &Placement,
    pins: &Pins,
    tracks: u32,
    budget: u64,
) -> Result<Option<PieceRouting>, NoMemory>
    requires placement { IsPlacement placement.now }
    requires pins { HasPins placement.now pins.now }
    requires some { HasNoPieces placement.now pins.now tracks → ⊥ }
    ensures first { IfOk result (λ r. IfSome r (IsFirstPieces placement.now pins.now tracks)) }
    ensures spent { IfOk result (λ r. IfNone r (AreMorePieceTries placement.now pins.now tracks budget)) }
{
    let mut tries = budget;
    match first_pieces(alloc, placement, pins, tracks, &mut tries) {
        Ok(routing) => Ok(Some(routing)),
        Err(FirstStop::Spent) => Ok(None),
        Err(FirstStop::NoMemory) => Err(NoMemory),
        Err(FirstStop::None) => unreachable!(),
    }
}

/// The first row of the kinds' fingers with at most that many gaps that has a legal routing by pieces on the fewest
/// tracks, where these are fewer than the most, and the first of its legal routings by pieces on these tracks. Where
/// the budget is spent before, it gives a lower bound on the tracks of each row. The budget is the most lemmas of the
/// search for the row, and the most tries of the search for the routing.
pub fn lowest_pieces<B: RowBound>(
    alloc: Global,
    bound: &B,
    pins: &Pins,
    kinds: &Kinds,
    gaps: u32,
    most: u32,
    budget: u64,
) -> Result<LowestPieces, NoMemory>
    requires { HavePins pins.now kinds.now gaps }
    // the row has all fingers and at most that many gaps
    ensures arranges { IfOk result (IfFound (λ p _. Arranges kinds.now gaps p.row)) }
    ensures placed { IfOk result (IfFound (λ p _. p ≡ placement_of p.row)) }
    ensures legal { IfOk result (IfFound (λ p r. ArePiecesLegal p pins.now r)) }
    // each legal routing by pieces of each such row takes as many tracks or more
    ensures fewest { IfOk result (λ lowest. TakePiecesAtLeast pins.now kinds.now gaps (least_of lowest)) }
    // the row precedes all others that have a legal routing by pieces on as many
    ensures first { IfOk result (IfFound (λ p r. IsFirstLowPieces pins.now kinds.now gaps r.tracks p.row)) }
    // and the routing all others of the row on as many
    ensures routing { IfOk result (IfFound (λ p r. IsFirstPieces p pins.now r.tracks r)) }
    ensures certified { IfOk result (λ lowest. ProveBy PieceLineFits (B.value bound.now) pins.now kinds.now gaps
        (least_of lowest) (lemmas_of lowest)) }
    // a text can hold the lemmas
    ensures fits { gaps ≤ 63 → most ≤ 256 → IfOk result (λ lowest. All (LemmaFits kinds.now) (lemmas_of lowest)) }
    // all lemmas that are kept on fewer tracks are no more than the budget
    ensures kept { IfOk result (λ lowest. IsKeptWithinBy PieceLineFits (B.value bound.now) pins.now kinds.now gaps
        (least_of lowest) budget (lemmas_of lowest)) }
    ensures most { IfOk result (λ lowest. least_of lowest ≤ most) }
    ensures below { IfOk result (IfFound (λ _ r. r.tracks < most)) }
    // the search ends open only at the most tracks, or where the budget is spent for a reason
    ensures open { IfOk result (IsOpenPieces (B.value bound.now) pins.now kinds.now gaps most budget) }
{
    kinds.show_limits();
    match fewest_tracks_by::<Turning, B>(alloc, bound, pins, kinds, gaps, most, budget)? {
        Fewest::Found {
            row,
            tracks,
            lemmas,
        } => {
            let placement = place(alloc, &row)?;
            match pieces_on(alloc, &placement, pins, tracks, budget)? {
                Some(routing) => Ok(LowestPieces::Found {
                    placement,
                    routing,
                    lemmas,
                }),
                None => Ok(LowestPieces::Open {
                    proved: tracks,
                    lemmas,
                }),
            }
        }
        Fewest::Open { proved, lemmas } => Ok(LowestPieces::Open { proved, lemmas }),
    }
}
