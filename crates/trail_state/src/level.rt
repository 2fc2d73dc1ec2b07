ghost use Rattle.std.specs.Prelude.{◌≡◌, ◌∷◌, None, IfErr, IfOk};
ghost use Rattle.cell_num.specs.Fingers.{AreFingers};
ghost use Rattle.trail_state.specs.Levels.{AreLevels, StopsAt, first_long, first_now};
ghost use Rattle.trail_state.specs.Pairings.{choices_of};

use crate::nodes::with_gate;
use crate::pairing::{choices, choices_within};
use crate::{Choice, Node};
use cell_num::{Fingers, List, NetNo, NoMemory};
use std::alloc::Global;

/// A gate of an order: the nodes that it and later gates can meet, those that later gates can, both in
/// ascending order, and its choices.
#[derive(Debug, PartialEq, Drop)]
pub struct Level {
    pub now: List<Node>,
    pub next: List<Node>,
    pub choices: List<Choice>,
}

/// Why the levels of an order are not listed.
#[derive(Debug, PartialEq, Drop)]
pub enum LevelStop {
    /// The fingers of the gate pair in too many ways. It is the first such gate of the order.
    Long { gate: NetNo },
    NoMemory,
}

impl From<NoMemory> for LevelStop {
    ghost use Rattle.trail_state.specs.declared.level.LevelStop.TheVariants.{NoMemory};

    ghost from_gives = { λ _ e. e ≡ NoMemory };

    fn from(_: NoMemory) -> LevelStop {
        LevelStop::NoMemory
    }
}

fn put_first(level: Level, mut levels: Vec<Level>) -> Result<Vec<Level>, NoMemory>
    ensures { IfOk result (λ all. all.items ≡ level ∷ levels.items) }
{
    match levels.insert(0, level) {
        Ok(()) => Ok(levels),
        Err(_) => Err(NoMemory),
    }
}

// A copy of the nodes of the first level.
fn first_nodes(alloc: Global, levels: &[Level]) -> Result<List<Node>, NoMemory>
    ensures { IfOk result (λ nodes. nodes ≡ first_now levels.now) }
{
    match levels.first() {
        Some(level) => Ok(level.now.clone()?),
        None => Ok(List::new(alloc)),
    }
}

// The levels with one of this gate before them.
#[tactic(auto, using(crate::proofs::Rules::level_rules))]
fn with_level(
    alloc: Global,
    fingers: &Fingers,
    gate: NetNo,
    choices: List<Choice>,
    later: &[NetNo],
    levels: Vec<Level>,
) -> Result<Vec<Level>, NoMemory>
    requires fingers { AreFingers fingers.now }
    requires choices { choices ≡ choices_of fingers.now gate.0 }
    requires later { AreLevels fingers.now later.now levels.items }
    ensures { IfOk result (λ all. AreLevels fingers.now (gate ∷ later.now) all.items) }
{
    let next = first_nodes(alloc, levels.as_slice())?;
    let level = Level {
        now: with_gate(alloc, fingers, gate, next.as_slice())?,
        next,
        choices,
    };
    let all = put_first(level, levels)?;
    Ok(all)
}

fn list(alloc: Global, fingers: &Fingers, order: &[NetNo]) -> Result<Vec<Level>, NoMemory>
    requires { AreFingers fingers.now }
    ensures { IfOk result (λ levels. AreLevels fingers.now order.now levels.items) }
{
    let Some((gate, later)) = order.split_first() else {
        return Ok(Vec::new(alloc));
    };
    let choices = choices(alloc, fingers, *gate)?;
    let levels = list(alloc, fingers, later)?;
    let all = with_level(alloc, fingers, *gate, choices, later, levels)?;
    Ok(all)
}

/// The gates of the order with their choices.
pub fn levels(alloc: Global, fingers: &Fingers, order: &[NetNo]) -> Result<List<Level>, NoMemory>
    requires { AreFingers fingers.now }
    ensures { IfOk result (λ levels. AreLevels fingers.now order.now levels) }
{
    Ok(List::from_vec(list(alloc, fingers, order)?))
}

// The choices of a gate are listed before those of later ones, so the first gate with too many ways ends it.
#[tactic(auto, using(crate::proofs::Rules::list_rules))]
fn list_within(
    alloc: Global,
    fingers: &Fingers,
    order: &[NetNo],
    most: usize,
) -> Result<Vec<Level>, LevelStop>
    requires { AreFingers fingers.now }
    ensures levels { IfOk result (λ levels. AreLevels fingers.now order.now levels.items) }
    ensures few { IfOk result (λ _. first_long most fingers.now order.now ≡ None) }
    ensures stops { IfErr result (StopsAt most fingers.now order.now) }
{
    let Some((gate, later)) = order.split_first() else {
        return Ok(Vec::new(alloc));
    };
    let Some(choices) = choices_within(alloc, fingers, *gate, most)? else {
        return Err(LevelStop::Long { gate: *gate });
    };
    let levels = match list_within(alloc, fingers, later, most) {
        Ok(levels) => levels,
        Err(why) => return Err(why),
    };
    let all = with_level(alloc, fingers, *gate, choices, later, levels)?;
    Ok(all)
}

/// The gates of the order with their choices, where none of them has more than `most` ways to pair the fingers of its
/// first columns.
pub fn levels_within(
    alloc: Global,
    fingers: &Fingers,
    order: &[NetNo],
    most: usize,
) -> Result<List<Level>, LevelStop>
    requires { AreFingers fingers.now }
    ensures levels { IfOk result (λ levels. AreLevels fingers.now order.now levels) }
    ensures few { IfOk result (λ _. first_long most fingers.now order.now ≡ None) }
    ensures stops { IfErr result (StopsAt most fingers.now order.now) }
{
    match list_within(alloc, fingers, order, most) {
        Ok(levels) => Ok(List::from_vec(levels)),
        Err(why) => Err(why),
    }
}
