ghost use Rattle.std.specs.Prelude.{◌≡◌, None, All, IfErr, IfOk};
ghost use Rattle.cell_num.specs.Fingers.{AreFingers};
ghost use Rattle.trail_state.specs.Levels.{IsOrder, StopsAt};
ghost use Rattle.open_gates.specs.Leveled.{levels_in};
ghost use Rattle.open_gates.specs.Listed.{HasFewNodes};
ghost use Rattle.open_gates.specs.Open.{closed_in, open_in};
ghost use Rattle.trail_check.specs.Gates.{first_with_many};
ghost use Rattle.trail_search.specs.Filling.{closed_gates, filled_gates, opened_gates};

use crate::gates::{fill, opened};
use cell_num::{Fingers, List};
use open_gates::{OpenGates, filled_levels_within, open_levels_within};
use std::alloc::Global;
use trail_check::MOST_CHOICES;
use trail_log::NetList;
use trail_state::{Level, LevelStop};

/// The levels of an order, the gates that are left open there, and those with half columns that are filled.
#[derive(Debug, Drop)]
pub(crate) struct GateLevels {
    pub opened: NetList,
    pub fill: NetList,
    pub levels: List<Level>,
}

// The levels of the order, where these gates are filled. It stops at the first gate with too many ways that is not left
// open.
#[tactic(auto, using(crate::proofs::Rules::closed_rules))]
fn open_levels(
    alloc: Global,
    fingers: &Fingers,
    fill: &NetList,
    order: &NetList,
) -> Result<List<Level>, LevelStop>
    requires { AreFingers fingers.now }
    ensures is { IfOk result (λ levels.
        levels ≡ levels_in fingers.now (open_in fingers.now fill.now order.now) order.now) }
    ensures nodes { IfOk result (All HasFewNodes) }
    ensures few_ways { IfOk result (λ _.
        first_with_many fingers.now (closed_in fingers.now fill.now order.now) ≡ None) }
    ensures stops { IfErr result (StopsAt MOST_CHOICES fingers.now (closed_in fingers.now fill.now order.now)) }
{
    let opened = OpenGates::unfilled(alloc, fingers, fill.as_slice(), order.as_slice())?;
    match open_levels_within(alloc, fingers, &opened, order.as_slice(), MOST_CHOICES) {
        Ok(levels) => Ok(levels),
        Err(why) => Err(why),
    }
}

// The levels where gates may be left open. Those with half columns are first asked whether they have too many ways.
#[tactic(auto, using(crate::proofs::Rules::listing_rules))]
fn open_listing(alloc: Global, fingers: &Fingers, order: &NetList) -> Result<GateLevels, LevelStop>
    requires { AreFingers fingers.now }
    ensures opened { IfOk result (λ listing. listing.opened ≡ opened_gates fingers.now order.now) }
    ensures fill { IfOk result (λ listing. listing.fill ≡ filled_gates fingers.now order.now) }
    ensures levels { IfOk result (λ listing.
        listing.levels ≡ levels_in fingers.now (open_in fingers.now listing.fill order.now) order.now) }
    ensures nodes { IfOk result (λ listing. All HasFewNodes listing.levels) }
    ensures few_ways { IfOk result (λ listing.
        first_with_many fingers.now (closed_in fingers.now listing.fill order.now) ≡ None) }
    ensures stops { IfErr result (StopsAt MOST_CHOICES fingers.now (closed_gates fingers.now order.now)) }
{
    let opened = opened(alloc, fingers, order)?;
    let fill = fill(alloc, fingers, &opened)?;
    let levels = match open_levels(alloc, fingers, &fill, order) {
        Ok(levels) => levels,
        Err(why) => return Err(why),
    };
    Ok(GateLevels {
        opened,
        fill,
        levels,
    })
}

/// The levels of the order, where gates with half columns that have too many ways are left open. It stops at the first
/// other gate with too many ways. Where no gate has too many, it lists the choices of each once.
#[tactic(auto, using(crate::proofs::Rules::listing_rules))]
pub(crate) fn listing(
    alloc: Global,
    fingers: &Fingers,
    order: &NetList,
) -> Result<GateLevels, LevelStop>
    requires fingers { AreFingers fingers.now }
    requires order { IsOrder fingers.now order.now }
    ensures opened { IfOk result (λ listing. listing.opened ≡ opened_gates fingers.now order.now) }
    ensures fill { IfOk result (λ listing. listing.fill ≡ filled_gates fingers.now order.now) }
    ensures levels { IfOk result (λ listing.
        listing.levels ≡ levels_in fingers.now (open_in fingers.now listing.fill order.now) order.now) }
    ensures nodes { IfOk result (λ listing. All HasFewNodes listing.levels) }
    ensures few_ways { IfOk result (λ listing.
        first_with_many fingers.now (closed_in fingers.now listing.fill order.now) ≡ None) }
    ensures stops { IfErr result (StopsAt MOST_CHOICES fingers.now (closed_gates fingers.now order.now)) }
{
    let levels = match filled_levels_within(alloc, fingers, order.as_slice(), MOST_CHOICES) {
        Ok(levels) => levels,
        Err(LevelStop::Long { .. }) => return open_listing(alloc, fingers, order),
        Err(LevelStop::NoMemory) => return Err(LevelStop::NoMemory),
    };
    let opened = List::new(alloc);
    let fill = fill(alloc, fingers, &opened)?;
    Ok(GateLevels {
        opened,
        fill,
        levels,
    })
}
