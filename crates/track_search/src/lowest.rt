ghost use Rattle.std.specs.Prelude.{◌≡◌, ◌<◌, ◌≤◌, All, IfNone, IfOk, IfSome};
ghost use Rattle.row_place.specs.Places.{IsPlacement, placement_of};
ghost use Rattle.row_place.specs.Trunks.{HasPins};
ghost use Rattle.channel_route.specs.Routing.{IsLegal};
ghost use Rattle.first_route.specs.First.{IsFirstRouting};
ghost use Rattle.first_route.specs.Tries.{AreMore};
ghost use Rattle.track_log.specs.Fits.{LemmaFits};
ghost use Rattle.track_search.specs.Fewest.{HasLegalTracks, Prove, TakeAtLeast};
ghost use Rattle.track_search.specs.Kept.{IsKeptWithin};
ghost use Rattle.track_search.specs.Lowest.{Arranges, HavePins, IfFound, IsFirstLow, IsOpen, lemmas_of, least_of};

use crate::{Fewest, fewest_tracks};
use cell_num::{NoMemory, Pins};
use channel_route::Routing;
use first_route::{FirstStop, first_routing};
use row_place::{Placement, place};
use row_state::{Kinds, RowBound};
use std::alloc::Global;
use track_ways::TrackLemmas;

/// What the search for the lowest row ends with.
#[derive(Debug, Drop)]
pub enum Lowest {
    /// The first row on the fewest tracks, in its placement, and the first of its routings on these tracks. Where the
    /// tracks are some, the lemmas certify that no row has one track less.
    Found {
        placement: Placement,
        routing: Routing,
        lemmas: TrackLemmas,
    },
    /// The budget of lemmas or of tries is spent, or no row has tracks below the most: each row takes at least that
    /// many tracks, which the lemmas certify where these are some.
    Open {
        proved: u32,
        lemmas: TrackLemmas,
    },
}

// The first routing on as many tracks as the row takes, or none where the tries are spent.
fn routing_on(
    alloc: Global,
    placement: &Placement,
    pins: &Pins,
    tracks: u32,
    budget: u64,
) -> Result<Option<Routing>, NoMemory>
    requires placement { IsPlacement placement.now }
    requires placed { placement.now ≡ placement_of placement.now.row }
    requires pins { HasPins placement.now pins.now }
    requires tracks { HasLegalTracks pins.now placement.now.row tracks }
    ensures first { IfOk result (λ r. IfSome r (IsFirstRouting placement.now pins.now tracks)) }
    ensures spent { IfOk result (λ r. IfNone r (AreMore placement.now pins.now tracks budget)) }
{
    let mut tries = budget;
    match first_routing(alloc, placement, pins, tracks, &mut tries) {
        Ok(routing) => Ok(Some(routing)),
        Err(FirstStop::Spent) => Ok(None),
        Err(FirstStop::NoMemory) => Err(NoMemory),
        Err(FirstStop::None) => unreachable!(),
    }
}

/// The first row of the kinds' fingers with at most that many gaps that has a legal routing on the fewest tracks, where
/// these are fewer than the most, and the first of its legal routings on these tracks. Where the budget is spent
/// before, it gives a lower bound on the tracks of each row. The budget is the most lemmas of the search for the row,
/// and the most tries of the search for the routing.
pub fn lowest_row<B: RowBound>(
    alloc: Global,
    bound: &B,
    pins: &Pins,
    kinds: &Kinds,
    gaps: u32,
    most: u32,
    budget: u64,
) -> Result<Lowest, NoMemory>
    requires { HavePins pins.now kinds.now gaps }
    // the row has all fingers and at most that many gaps
    ensures arranges { IfOk result (IfFound (λ p _. Arranges kinds.now gaps p.row)) }
    ensures placed { IfOk result (IfFound (λ p _. p ≡ placement_of p.row)) }
    ensures legal { IfOk result (IfFound (λ p r. IsLegal p pins.now r)) }
    // each legal routing of each such row takes as many tracks or more
    ensures fewest { IfOk result (λ lowest. TakeAtLeast pins.now kinds.now gaps (least_of lowest)) }
    // the row precedes all others that have a legal routing on as many
    ensures first { IfOk result (IfFound (λ p r. IsFirstLow pins.now kinds.now gaps r.tracks p.row)) }
    // and the routing all others of the row on as many
    ensures routing { IfOk result (IfFound (λ p r. IsFirstRouting p pins.now r.tracks r)) }
    ensures certified { IfOk result (λ lowest. Prove (B.value bound.now) pins.now kinds.now gaps (least_of lowest)
        (lemmas_of lowest)) }
    // a text can hold the lemmas
    ensures fits { gaps ≤ 63 → most ≤ 256 → IfOk result (λ lowest. All (LemmaFits kinds.now) (lemmas_of lowest)) }
    // all lemmas that are kept on fewer tracks are no more than the budget
    ensures kept { IfOk result (λ lowest. IsKeptWithin (B.value bound.now) pins.now kinds.now gaps (least_of lowest)
        budget (lemmas_of lowest)) }
    ensures most { IfOk result (λ lowest. least_of lowest ≤ most) }
    ensures below { IfOk result (IfFound (λ _ r. r.tracks < most)) }
    // the search ends open only at the most tracks, or where the budget is spent for a reason
    ensures open { IfOk result (IsOpen (B.value bound.now) pins.now kinds.now gaps most budget) }
{
    kinds.show_limits();
    match fewest_tracks(alloc, bound, pins, kinds, gaps, most, budget)? {
        Fewest::Found {
            row,
            tracks,
            lemmas,
        } => {
            let placement = place(alloc, &row)?;
            match routing_on(alloc, &placement, pins, tracks, budget)? {
                Some(routing) => Ok(Lowest::Found {
                    placement,
                    routing,
                    lemmas,
                }),
                None => Ok(Lowest::Open {
                    proved: tracks,
                    lemmas,
                }),
            }
        }
        Fewest::Open { proved, lemmas } => Ok(Lowest::Open { proved, lemmas }),
    }
}
