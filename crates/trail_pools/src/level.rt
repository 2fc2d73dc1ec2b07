ghost use Rattle.std.specs.Prelude.{◌≡◌, ◌≤◌, ◌∷◌, ◌*◌, ◌^◌, All, IfOk, length};
ghost use Rattle.cell_num.specs.declared.net.NetNo.{NetNo as NetNoOf};
ghost use Rattle.cell_num.specs.Fingers.{AreFingers};
ghost use Rattle.trail_state.specs.Levels.{IsGate};
ghost use Rattle.open_gates.specs.Open.{is_left_open, is_merged_net};
ghost use Rattle.trail_pools.specs.Leveled.{HasFew, level_of, levels_of, pools_of};
ghost use Rattle.trail_pools.specs.Levels.{AreLevels};

use crate::choices::open_choices;
use crate::places::open_places;
use crate::pools::Pools;
use cell_num::{Fingers, List, NetNo, NoMemory};
use open_gates::OpenGates;
use std::alloc::{AllocError, Global};
use trail_halves::OpenChoice;
use trail_state::Node;

/// What some gates can still meet, in ascending order.
#[derive(Debug, PartialEq, Drop)]
pub struct OpenPlaces {
    /// Nodes in no pool, and behind them the pools, each by the sum of `Pools::nodes` and its net.
    pub places: List<Node>,
    /// The nodes of these pools.
    pub nodes: List<Node>,
}

/// A gate of an order: what it and later gates can meet, what later gates can, and its choices.
#[derive(Debug, PartialEq, Drop)]
pub struct PoolLevel {
    pub now: OpenPlaces,
    pub next: OpenPlaces,
    pub choices: List<OpenChoice>,
}

fn put_first(level: PoolLevel, mut levels: Vec<PoolLevel>) -> Result<Vec<PoolLevel>, AllocError>
    ensures { IfOk result (λ all. all.items ≡ level ∷ levels.items) }
{
    levels.insert(0, level)?;
    Ok(levels)
}

// The level of the first gate of an order.
fn level(
    alloc: Global,
    fingers: &Fingers,
    counted: &OpenGates,
    pools: &Pools,
    order: &[NetNo],
    gate: &NetNo,
    later: &[NetNo],
) -> Result<PoolLevel, NoMemory>
    requires fingers { AreFingers fingers.now }
    requires pools { pools.now ≡ pools_of fingers.now counted.now }
    requires order { order.now ≡ gate.now ∷ later.now }
    ensures { IfOk result (λ level. level ≡ level_of fingers.now counted.now gate.now later.now) }
{
    Ok(PoolLevel {
        now: open_places(alloc, fingers, counted, pools, order)?,
        next: open_places(alloc, fingers, counted, pools, later)?,
        choices: open_choices(alloc, fingers, counted, *gate)?,
    })
}

#[tactic(auto, using(crate::proofs::Leveled::first_level))]
fn list(
    alloc: Global,
    fingers: &Fingers,
    counted: &OpenGates,
    pools: &Pools,
    order: &[NetNo],
) -> Result<Vec<PoolLevel>, NoMemory>
    requires fingers { AreFingers fingers.now }
    requires pools { pools.now ≡ pools_of fingers.now counted.now }
    ensures { IfOk result (λ levels. levels.items ≡ levels_of fingers.now counted.now order.now) }
{
    let Some((gate, later)) = order.split_first() else {
        return Ok(Vec::new(alloc));
    };
    let level = level(alloc, fingers, counted, pools, order, gate, later)?;
    let levels = list(alloc, fingers, counted, pools, later)?;
    Ok(put_first(level, levels)?)
}

/// The levels of an order of gates, where these are left open: what gates can meet by their fingers, and all open
/// choices. Where the order is of gates, these are levels that the laws speak of, with the pools of `Pools::of`. Each
/// has at most 131,072 places. A gate's open choices are listed as by `open_choices`, so see first that there are not
/// too many ways to pair its fingers.
#[tactic(auto, using(crate::proofs::Leveled::are_levels))]
pub fn levels(
    alloc: Global,
    fingers: &Fingers,
    counted: &OpenGates,
    order: &[NetNo],
) -> Result<List<PoolLevel>, NoMemory>
    requires { AreFingers fingers.now }
    ensures is { IfOk result (λ levels. levels ≡ levels_of fingers.now counted.now order.now) }
    ensures are { IfOk result (λ levels. All (λ (g : NetNoOf). IsGate fingers.now g.0) order.now →
        AreLevels fingers.now counted.now.row (is_left_open counted.now) (is_merged_net fingers.now counted.now)
        order.now levels) }
    ensures few { IfOk result (All HasFew) }
{
    let pools = Pools::of(alloc, fingers, counted)?;
    let levels = list(alloc, fingers, counted, &pools, order)?;
    Ok(List::from_vec(levels))
}
