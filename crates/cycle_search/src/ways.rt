// Ways down from one net to another: by pairs that follow from what the lines up to a state ask for, and by new steps.
ghost use Rattle.std.specs.Prelude.{◌≡◌, ◌↔◌, ◌++◌, ◌⊎◌, All, IfOk, IfSome, IsTrue, OnOk};
ghost use Rattle.row_cycles.specs.Above.{Follows, HasCycle};
ghost use Rattle.cycle_search.specs.Below.{IsSound};
ghost use Rattle.cycle_search.specs.Ways.{AddsNeeded, Closes, IsAtOrAbove, IsWay};

use crate::asked::Asked;
use cell_num::{NetNo, NoMemory};
use row_cycles::{AboveList, NetAbove};
use std::alloc::Global;

fn is_same(net: NetNo, other: NetNo) -> bool
    ensures { IsTrue result ↔ (net ≡ other) }
{
    net == other
}

// Adds the pair of the two nets where it follows, or nothing where they are one net. Else it says no.
fn add_pair(
    asked: &Asked,
    pairs: &mut AboveList,
    upper: NetNo,
    lower: NetNo,
) -> Result<bool, NoMemory>
    requires sound { IsSound asked.now.pairs asked.now.below }
    ensures adds { OnOk result (AddsNeeded asked.now.pairs pairs.old pairs.new) }
    ensures leads { IfOk result (λ leads. IsTrue leads → IsAtOrAbove pairs.new upper lower) }
{
    if is_same(upper, lower) {
        return Ok(true);
    }
    let pair = NetAbove { upper, lower };
    if !asked.below.has(&pair) {
        return Ok(false);
    }
    pairs.push(pair)?;
    Ok(true)
}

// The pairs of a way down from one net to another by these steps; none, where they don't follow.
fn way(
    alloc: Global,
    asked: &Asked,
    from: NetNo,
    steps: &[NetAbove],
    to: NetNo,
) -> Result<Option<AboveList>, NoMemory>
    requires sound { IsSound asked.now.pairs asked.now.below }
    ensures { IfOk result (λ way. IfSome way (IsWay asked.now.pairs steps.now from to)) }
{
    let mut pairs = AboveList::new(alloc);
    let mut net = from;
    for step in steps {
        if !add_pair(asked, &mut pairs, net, step.upper)? {
            return Ok(None);
        }
        net = step.lower;
    }
    if !add_pair(asked, &mut pairs, net, to)? {
        return Ok(None);
    }
    Ok(Some(pairs))
}

// The one with fewer pairs.
fn fewer(best: Option<AboveList>, other: Option<AboveList>) -> Option<AboveList>
    ensures { (result ≡ best) ⊎ (result ≡ other) }
{
    let Some(pairs) = other else {
        return best;
    };
    match best {
        Some(least) => {
            if pairs.len() < least.len() {
                Some(pairs)
            } else {
                Some(least)
            }
        }
        None => Some(pairs),
    }
}

// The way with the fewest pairs, by none, one or two of the new steps.
fn shortest(
    alloc: Global,
    asked: &Asked,
    new: &[NetAbove],
    from: NetNo,
    to: NetNo,
) -> Result<Option<AboveList>, NoMemory>
    requires sound { IsSound asked.now.pairs asked.now.below }
    ensures { IfOk result (λ way. IfSome way (IsWay asked.now.pairs new.now from to)) }
{
    let mut best = way(alloc, asked, from, &[], to)?;
    for first in new {
        let by_one = way(alloc, asked, from, &[*first], to)?;
        best = fewer(best, by_one);
        for second in new {
            let by_two = way(alloc, asked, from, &[*first, *second], to)?;
            best = fewer(best, by_two);
        }
    }
    Ok(best)
}

// The fewest pairs that close a cycle with one of the new steps.
fn closing(alloc: Global, asked: &Asked, new: &[NetAbove]) -> Result<Option<AboveList>, NoMemory>
    requires sound { IsSound asked.now.pairs asked.now.below }
    ensures { IfOk result (λ pairs. IfSome pairs (Closes asked.now.pairs new.now)) }
{
    let mut best = None;
    for step in new {
        let back = shortest(alloc, asked, new, step.lower, step.upper)?;
        best = fewer(best, back);
    }
    Ok(best)
}

/// Adds the pairs of a cycle that one of the new steps closes, if it finds one.
pub(crate) fn add_cycle(
    alloc: Global,
    asked: &Asked,
    new: &[NetAbove],
    need: &mut AboveList,
) -> Result<bool, NoMemory>
    requires sound { IsSound asked.now.pairs asked.now.below }
    ensures adds { OnOk result (AddsNeeded asked.now.pairs need.old need.new) }
    ensures cycle { IfOk result (λ found. IsTrue found → HasCycle (need.new ++ new.now)) }
{
    let Some(pairs) = closing(alloc, asked, new)? else {
        return Ok(false);
    };
    need.extend(pairs.as_slice())?;
    Ok(true)
}

// Adds what the pair needs beside the new steps, if it finds it.
fn add_way(
    alloc: Global,
    asked: &Asked,
    new: &[NetAbove],
    pair: &NetAbove,
    need: &mut AboveList,
) -> Result<bool, NoMemory>
    requires sound { IsSound asked.now.pairs asked.now.below }
    ensures adds { OnOk result (AddsNeeded asked.now.pairs need.old need.new) }
    ensures follows { IfOk result (λ found. IsTrue found → Follows (need.new ++ new.now) pair.now) }
{
    if is_same(pair.upper, pair.lower) {
        return Ok(false);
    }
    let Some(pairs) = shortest(alloc, asked, new, pair.upper, pair.lower)? else {
        return Ok(false);
    };
    need.extend(pairs.as_slice())?;
    Ok(true)
}

/// Adds what the pairs need beside the new steps, if it finds it.
pub(crate) fn add_ways(
    alloc: Global,
    asked: &Asked,
    new: &[NetAbove],
    pairs: &[NetAbove],
    need: &mut AboveList,
) -> Result<bool, NoMemory>
    requires sound { IsSound asked.now.pairs asked.now.below }
    ensures adds { OnOk result (AddsNeeded asked.now.pairs need.old need.new) }
    ensures follow { IfOk result (λ found. IsTrue found → All (Follows (need.new ++ new.now)) pairs.now) }
{
    for pair in pairs {
        if !add_way(alloc, asked, new, pair, need)? {
            return Ok(false);
        }
    }
    Ok(true)
}
