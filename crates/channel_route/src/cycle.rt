// Finds a cycle where each wire that is left stands above another one.

ghost use Rattle.std.specs.Prelude.{◌≡◌, ◌≢◌, ◌≤◌, ◌<◌, true, All};
ghost use Rattle.std.specs.Prelude.{Contains, IfOk, length, slice_index_or};
ghost use Rattle.channel_route.specs.declared.constraint.Constraint.{Constraint as AConstraint};
ghost use Rattle.channel_route.specs.declared.cycle.Step.{Step as AStep};
ghost use Rattle.channel_route.specs.Graph.{has_key, waits};
ghost use Rattle.channel_route.specs.Turn.{steps, waits_at, AreInOrder, IsDown, passes, IsTurn};
ghost use Rattle.channel_route.specs.Walk.{IsKeyCycleBelow};

use crate::constraint::{Constraint, leads_on};
use crate::wire::Wire;
use std::alloc::{AllocError, Global};

/// A wire of a walk, which stands above the next one at a line.
#[derive(Clone, Copy, Debug, PartialEq, Eq)]
pub struct Step {
    pub wire: Wire,
    pub line: u32,
}

fn is_passed(path: &[Step], key: u32) -> bool
    ensures { result ≡ passes steps path.now key }
{
    path.iter().any(|step| step.wire.key == key)
}

// The first constraint of the key over a wire that is left.
fn next_below(left: &[Wire], constraints: &[Constraint], key: u32) -> Constraint
    requires waits { waits_at left.now key constraints.now ≡ true }
    requires order { AreInOrder constraints.now }
    ensures { IsDown left.now constraints.now key result.lower result.line }
{
    for constraint in constraints {
        if leads_on(constraint, left, key) {
            return *constraint;
        }
    }
    unreachable!()
}

fn wire_of_key(left: &[Wire], key: u32) -> Wire
    requires { has_key left.now key ≡ true }
    ensures there { Contains left.now result }
    ensures is { result.key ≡ key }
{
    for wire in left {
        if wire.key == key {
            return *wire;
        }
    }
    unreachable!()
}

// The first place of a key that a path passes.
fn place_in(path: &[Step], key: u32) -> usize
    requires { passes steps path.now key ≡ true }
    ensures below { result < length path.now }
    ensures is { (d : AStep) → (slice_index_or path.now result d).wire.key ≡ key }
{
    for at in 0..path.len() {
        if path[at].wire.key == key {
            return at;
        }
    }
    unreachable!()
}

// Goes down from a wire until it reaches one again, and gives the walk from there on.
fn turn(
    alloc: Global,
    left: &[Wire],
    constraints: &[Constraint],
    start: Wire,
) -> Result<Vec<Step>, AllocError>
    requires stuck { All (λ w. waits left.now constraints.now w ≡ true) left.now }
    requires order { AreInOrder constraints.now }
    requires start { Contains left.now start }
    ensures turn { IfOk result (λ turn. IsTurn steps (IsDown left.now constraints.now) start.key turn.items) }
    ensures wires { IfOk result (λ turn. All (λ step. Contains left.now step.wire) turn.items) }
{
    let mut path = Vec::new(alloc);
    let mut here = start;
    while !is_passed(&path, here.key) {
        let next = next_below(left, constraints, here.key);
        path.push(Step {
            wire: here,
            line: next.line,
        })?;
        here = wire_of_key(left, next.lower);
    }
    let at = place_in(&path, here.key);
    let mut turn = Vec::new(alloc);
    turn.extend_from_slice(&path[at..])?;
    Ok(turn)
}

fn least_key(turn: &[Step]) -> u32
    requires { 0 < length turn.now }
    ensures there { passes steps turn.now result ≡ true }
    ensures least { All (λ a. result ≤ a.wire.key) turn.now }
{
    let mut least = turn[0].wire.key;
    for step in turn {
        if step.wire.key < least {
            least = step.wire.key;
        }
    }
    least
}

// The place of the least key.
fn least_place(turn: &[Step]) -> usize
    requires { 0 < length turn.now }
    ensures below { result < length turn.now }
    ensures least { (d : AStep) → All (λ a. (slice_index_or turn.now result d).wire.key ≤ a.wire.key) turn.now }
{
    place_in(turn, least_key(turn))
}

/// The cycle to which the walk down from a wire comes, the wire of the least key first.
pub fn find_cycle(
    alloc: Global,
    left: &[Wire],
    constraints: &[Constraint],
    start: Wire,
) -> Result<Vec<Step>, AllocError>
    requires stuck { All (λ w. waits left.now constraints.now w ≡ true) left.now }
    requires order { AreInOrder constraints.now }
    requires start { Contains left.now start }
    requires differ { (c : AConstraint) → Contains constraints.now c → c.upper ≢ c.lower }
    ensures cycle { IfOk result (λ cycle.
        IsKeyCycleBelow steps (IsDown left.now constraints.now) start.key cycle.items) }
    ensures wires { IfOk result (λ cycle. All (λ step. Contains left.now step.wire) cycle.items) }
{
    let turn = turn(alloc, left, constraints, start)?;
    if turn.is_empty() {
        unreachable!()
    }
    let at = least_place(&turn);
    let mut cycle = Vec::new(alloc);
    cycle.extend_from_slice(&turn[at..])?;
    cycle.extend_from_slice(&turn[..at])?;
    Ok(cycle)
}
