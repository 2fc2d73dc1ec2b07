ghost use Rattle.std.specs.Prelude.{◌≡◌, ◌∷◌, None, All, IfErr, IfOk};
ghost use Rattle.cell_num.specs.Fingers.{AreFingers};
ghost use Rattle.trail_state.specs.Levels.{AreLevels, StopsAt, first_long};
ghost use Rattle.open_gates.specs.Leveled.{levels_in, levels_of, merged_levels};
ghost use Rattle.open_gates.specs.Listed.{HasFewNodes, level_with, nets_merged};
ghost use Rattle.open_gates.specs.Open.{closed_by};

use crate::OpenGates;
use crate::choices::choices_within;
use crate::gates::merged_nets;
use crate::nodes::nodes_in;
use cell_num::{Fingers, List, NetNo, NoMemory};
use std::alloc::Global;
use trail_state::{Choice, Level, LevelStop, levels_within};

fn put_first(level: Level, mut levels: Vec<Level>) -> Result<Vec<Level>, NoMemory>
    ensures { IfOk result (λ all. all.items ≡ level ∷ levels.items) }
{
    match levels.insert(0, level) {
        Ok(()) => Ok(levels),
        Err(_) => Err(NoMemory),
    }
}

// The level of the first gate of an order, with these choices.
fn level(
    alloc: Global,
    fingers: &Fingers,
    opened: &OpenGates,
    nets: &[u32],
    order: &[NetNo],
    later: &[NetNo],
    choices: List<Choice>,
) -> Result<Level, NoMemory>
    requires fingers { AreFingers fingers.now }
    requires nets { nets.now ≡ nets_merged fingers.now opened.now }
    ensures { IfOk result (λ level. level ≡ level_with fingers.now opened.now order.now later.now choices) }
{
    Ok(Level {
        now: nodes_in(alloc, fingers, opened, nets, order)?,
        next: nodes_in(alloc, fingers, opened, nets, later)?,
        choices,
    })
}

// The choices of a gate are listed before those of later ones, so the first gate with too many ways ends it.
#[tactic(auto, using(crate::proofs::Closed::list_rules))]
fn list_within(
    alloc: Global,
    fingers: &Fingers,
    opened: &OpenGates,
    nets: &[u32],
    order: &[NetNo],
    most: usize,
) -> Result<Vec<Level>, LevelStop>
    requires fingers { AreFingers fingers.now }
    requires nets { nets.now ≡ nets_merged fingers.now opened.now }
    ensures levels { IfOk result (λ levels. levels.items ≡ merged_levels fingers.now opened.now order.now) }
    ensures few { IfOk result (λ _. first_long most fingers.now (closed_by opened.now order.now) ≡ None) }
    ensures stops { IfErr result (StopsAt most fingers.now (closed_by opened.now order.now)) }
{
    let Some((gate, later)) = order.split_first() else {
        return Ok(Vec::new(alloc));
    };
    let Some(choices) = choices_within(alloc, fingers, opened, nets, *gate, most)? else {
        return Err(LevelStop::Long { gate: *gate });
    };
    let levels = match list_within(alloc, fingers, opened, nets, later, most) {
        Ok(levels) => levels,
        Err(why) => return Err(why),
    };
    let level = level(alloc, fingers, opened, nets, order, later, choices)?;
    let all = put_first(level, levels)?;
    Ok(all)
}

fn merged_levels_within(
    alloc: Global,
    fingers: &Fingers,
    opened: &OpenGates,
    order: &[NetNo],
    most: usize,
) -> Result<List<Level>, LevelStop>
    requires { AreFingers fingers.now }
    ensures levels { IfOk result (λ levels. levels ≡ merged_levels fingers.now opened.now order.now) }
    ensures few { IfOk result (λ _. first_long most fingers.now (closed_by opened.now order.now) ≡ None) }
    ensures stops { IfErr result (StopsAt most fingers.now (closed_by opened.now order.now)) }
{
    let nets = match merged_nets(alloc, fingers, opened) {
        Ok(nets) => nets,
        Err(_) => return Err(LevelStop::NoMemory),
    };
    match list_within(alloc, fingers, opened, nets.as_slice(), order, most) {
        Ok(levels) => Ok(List::from_vec(levels)),
        Err(why) => Err(why),
    }
}

/// The levels of an order of gates, each of them filled, where none has more than `most` ways to pair the fingers of
/// its first columns. It stops at the first gate that has more.
#[tactic(auto, using(crate::proofs::Leveled::are_levels, crate::proofs::Leveled::few_nodes))]
pub fn filled_levels_within(
    alloc: Global,
    fingers: &Fingers,
    order: &[NetNo],
    most: usize,
) -> Result<List<Level>, LevelStop>
    requires { AreFingers fingers.now }
    ensures are { IfOk result (AreLevels fingers.now order.now) }
    ensures is { IfOk result (λ levels. levels ≡ levels_of fingers.now order.now) }
    ensures nodes { IfOk result (All HasFewNodes) }
    ensures few { IfOk result (λ _. first_long most fingers.now order.now ≡ None) }
    ensures stops { IfErr result (StopsAt most fingers.now order.now) }
{
    match levels_within(alloc, fingers, order, most) {
        Ok(levels) => Ok(levels),
        Err(why) => Err(why),
    }
}

/// The levels of an order of gates, some of them left open, where no other has more than `most` ways to pair fingers
/// of its first columns. It stops at the first other gate that has more. Each level has at most 65,536 nodes.
#[tactic(auto, using(crate::proofs::Closed::open_rules))]
pub fn open_levels_within(
    alloc: Global,
    fingers: &Fingers,
    opened: &OpenGates,
    order: &[NetNo],
    most: usize,
) -> Result<List<Level>, LevelStop>
    requires { AreFingers fingers.now }
    ensures is { IfOk result (λ levels. levels ≡ levels_in fingers.now opened.now order.now) }
    ensures nodes { IfOk result (All HasFewNodes) }
    ensures few { IfOk result (λ _. first_long most fingers.now (closed_by opened.now order.now) ≡ None) }
    ensures stops { IfErr result (StopsAt most fingers.now (closed_by opened.now order.now)) }
{
    if opened.gates.len() == 0 {
        match filled_levels_within(alloc, fingers, order, most) {
            Ok(levels) => Ok(levels),
            Err(why) => Err(why),
        }
    } else {
        match merged_levels_within(alloc, fingers, opened, order, most) {
            Ok(levels) => Ok(levels),
            Err(why) => Err(why),
        }
    }
}
