ghost use Rattle.std.specs.Prelude.{◌≡◌, ◌∷◌, None, All, IfErr, IfOk};
ghost use Rattle.cell_num.specs.Fingers.{AreFingers};
ghost use Rattle.trail_state.specs.Levels.{AreLevels, StopsAt, first_long};
ghost use Rattle.trail_state.specs.Nodes.{open_nodes};
ghost use Rattle.open_gates.specs.Leveled.{levels_of};
ghost use Rattle.open_gates.specs.Listed.{HasFewNodes};
ghost use Rattle.trail_search.specs.Lists.{AreRight};

use crate::lists::ChoiceLists;
use cell_num::{Fingers, List, NetNo, NoMemory};
use std::alloc::Global;
use trail_check::MOST_CHOICES;
use trail_state::{Choice, Level, LevelStop, open_nodes};

// The level of the first gate of an order, with these choices.
fn level(
    alloc: Global,
    fingers: &Fingers,
    order: &[NetNo],
    later: &[NetNo],
    choices: List<Choice>,
) -> Result<Level, NoMemory>
    requires { AreFingers fingers.now }
    ensures now { IfOk result (λ level. level.now ≡ open_nodes fingers.now order.now) }
    ensures next { IfOk result (λ level. level.next ≡ open_nodes fingers.now later.now) }
    ensures choices { IfOk result (λ level. level.choices ≡ choices) }
{
    Ok(Level {
        now: open_nodes(alloc, fingers, order)?,
        next: open_nodes(alloc, fingers, later)?,
        choices,
    })
}

fn put_first(level: Level, mut levels: Vec<Level>) -> Result<Vec<Level>, NoMemory>
    ensures { IfOk result (λ all. all.items ≡ level ∷ levels.items) }
{
    match levels.insert(0, level) {
        Ok(()) => Ok(levels),
        Err(_) => Err(NoMemory),
    }
}

#[tactic(auto, using(crate::proofs::Choices::list_rules))]
fn list(
    alloc: Global,
    fingers: &Fingers,
    order: &[NetNo],
    lists: &mut ChoiceLists,
) -> Result<Vec<Level>, LevelStop>
    requires fingers { AreFingers fingers.now }
    requires right { AreRight lists.old }
    ensures right { AreRight lists.new }
    ensures levels { IfOk result (λ levels. AreLevels fingers.now order.now levels.items) }
    ensures few { IfOk result (λ _. first_long MOST_CHOICES fingers.now order.now ≡ None) }
    ensures stops { IfErr result (StopsAt MOST_CHOICES fingers.now order.now) }
{
    let Some((gate, later)) = order.split_first() else {
        return Ok(Vec::new(alloc));
    };
    let Some(choices) = lists.choices(alloc, fingers, *gate)? else {
        return Err(LevelStop::Long { gate: *gate });
    };
    let levels = match list(alloc, fingers, later, lists) {
        Ok(levels) => levels,
        Err(why) => return Err(why),
    };
    let level = level(alloc, fingers, order, later, choices)?;
    let all = put_first(level, levels)?;
    Ok(all)
}

/// The levels of the order where each gate is filled. It stops at the first gate with too many ways. Choices that are
/// kept are not listed again.
#[tactic(auto, using(crate::proofs::Choices::filled_rules))]
pub(crate) fn filled_levels(
    alloc: Global,
    fingers: &Fingers,
    order: &[NetNo],
    lists: &mut ChoiceLists,
) -> Result<List<Level>, LevelStop>
    requires fingers { AreFingers fingers.now }
    requires right { AreRight lists.old }
    ensures right { AreRight lists.new }
    ensures are { IfOk result (AreLevels fingers.now order.now) }
    ensures is { IfOk result (λ levels. levels ≡ levels_of fingers.now order.now) }
    ensures nodes { IfOk result (All HasFewNodes) }
    ensures few { IfOk result (λ _. first_long MOST_CHOICES fingers.now order.now ≡ None) }
    ensures stops { IfErr result (StopsAt MOST_CHOICES fingers.now order.now) }
{
    match list(alloc, fingers, order, lists) {
        Ok(levels) => Ok(List::from_vec(levels)),
        Err(why) => Err(why),
    }
}
