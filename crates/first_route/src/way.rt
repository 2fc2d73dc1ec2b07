ghost use Rattle.std.specs.Prelude.{ℕ, ◌≡◌, ◌≤◌, ◌<◌, ◌+◌, ◌++◌, ◌∷◌, [], true, false, IfOk, IfErr, OnOk, List};
ghost use Rattle.channel_route.specs.declared.wire.PlacedWire.{PlacedWire as APlaced};
ghost use Rattle.cell_num.specs.declared.halt.Halt.TheVariants.{Spent};
ghost use Rattle.first_route.specs.declared.stop.FirstStop.TheVariants as because;
ghost use Rattle.first_route.specs.Tries.{tries};
ghost use Rattle.first_route.specs.Ways.{AreFirst, Fails};

use crate::FirstStop;
use crate::fit::{fits, on_track};
use crate::room::is_open;
use cell_num::Halt;
use channel_route::{Constraint, PlacedWire, Wire};
use std::alloc::Global;

// What the wires are put on: that many tracks, with constraints between the keys of wires.
#[derive(Drop)]
struct Channel<'a> {
    constraints: &'a [Constraint],
    tracks: u32,
}

// Puts a wire on its track, if the budget has a try left.
fn put(placed: &mut Vec<PlacedWire>, one: PlacedWire, budget: &mut u64) -> Result<(), Halt>
    ensures placed { OnOk result (placed.new.items ≡ placed.old.items ++ one ∷ []) }
    ensures one { OnOk result (budget.old ≡ budget.new + 1) }
    ensures fewer { budget.new ≤ budget.old }
    ensures none { IfErr result (λ halt. halt ≡ Spent → budget.old ≡ 0) }
    ensures spent { IfErr result (λ halt. halt ≡ Spent → budget.new ≡ 0) }
{
    if *budget == 0 {
        return Err(Halt::Spent);
    }
    *budget -= 1;
    match placed.push(one) {
        Ok(()) => Ok(()),
        Err(_) => Err(Halt::NoMemory),
    }
}

fn remove_last(placed: &mut Vec<PlacedWire>)
    ensures { (before : List APlaced) (last : APlaced) → placed.old.items ≡ before ++ last ∷ []
        → placed.new.items ≡ before }
{
    placed.pop();
}

// Puts the wires that are left on the tracks of the first way, or says that there is none.
fn descend(
    channel: &Channel,
    left: &[Wire],
    placed: &mut Vec<PlacedWire>,
    budget: &mut u64,
) -> Result<bool, Halt>
    ensures found { IfOk result (λ found. found ≡ true
        → AreFirst channel.now.constraints.now channel.now.tracks placed.old.items left.now placed.new.items) }
    ensures same { IfOk result (λ found. found ≡ false → placed.new.items ≡ placed.old.items) }
    ensures fails { IfOk result (λ found. found ≡ false
        → Fails channel.now.constraints.now channel.now.tracks placed.old.items left.now) }
    ensures tried { IfOk result (λ found. found ≡ false → budget.old
        ≡ budget.new + tries channel.now.constraints.now channel.now.tracks placed.old.items left.now) }
    ensures fewer { budget.new ≤ budget.old }
    ensures more { IfErr result (λ halt. halt ≡ Spent → budget.old
        < tries channel.now.constraints.now channel.now.tracks placed.old.items left.now) }
    ensures spent { IfErr result (λ halt. halt ≡ Spent → budget.new ≡ 0) }
{
    if !is_open(channel.constraints, channel.tracks, placed.as_slice(), left) {
        return Ok(false);
    }
    let Some((first, rest)) = left.split_first() else {
        return Ok(true);
    };
    for track in 0..channel.tracks {
        let one = on_track(first, track);
        if !fits(channel.constraints, placed.as_slice(), &one) {
            continue;
        }
        put(placed, one, budget)?;
        if descend(channel, rest, placed, budget)? {
            return Ok(true);
        }
        remove_last(placed);
    }
    Ok(false)
}

/// The wires on the tracks of the first way: the first wire is on the lowest track, of the ways of which this is true
/// the second one is on the lowest, and so on. On each of the tracks there is a wire; wires of different nets on one
/// track have no line in common; where a constraint is between the keys of two wires, the upper one has the higher
/// track. The budget is of tries, each a wire that is put on a track; what is left of it is written back.
pub fn first_way(
    alloc: Global,
    constraints: &[Constraint],
    wires: &[Wire],
    tracks: u32,
    budget: &mut u64,
) -> Result<Vec<PlacedWire>, FirstStop>
    ensures first { IfOk result (λ placed. AreFirst constraints.now tracks [] wires.now placed.items) }
    ensures none { IfErr result (λ stop. stop ≡ because.None → Fails constraints.now tracks [] wires.now) }
    // then all tries were made
    ensures tried { IfErr result (λ stop. stop ≡ because.None
        → budget.old ≡ budget.new + tries constraints.now tracks [] wires.now) }
    ensures fewer { budget.new ≤ budget.old }
    // a budget that is enough is never spent
    ensures more { IfErr result (λ stop. stop ≡ because.Spent
        → budget.old < tries constraints.now tracks [] wires.now) }
    ensures spent { IfErr result (λ stop. stop ≡ because.Spent → budget.new ≡ 0) }
{
    let channel = Channel {
        constraints,
        tracks,
    };
    let mut placed = Vec::new(alloc);
    match descend(&channel, wires, &mut placed, budget) {
        Ok(true) => Ok(placed),
        Ok(false) => Err(FirstStop::None),
        Err(Halt::Spent) => Err(FirstStop::Spent),
        Err(Halt::NoMemory) => Err(FirstStop::NoMemory),
    }
}
