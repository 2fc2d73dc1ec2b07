// Fills the channel track by track: on each one the wires that stand above no wire that is left are
// put in order, each that begins after the one put before it, or where that one of its own net ends.

ghost use Rattle.std.specs.Prelude.{◌≡◌, ◌≤◌, ◌<◌, ◌+◌, true, All, IfOk, List, length};
ghost use Rattle.channel_route.specs.declared.wire.Wire.{Wire as AWire};
ghost use Rattle.channel_route.specs.Graph.{IsChannel, IsFilled, IsOutcome, waits, starts_behind, has_room};

use crate::constraint::{Constraint, leads_on};
use crate::wire::{MOST_WIRES, PlacedWire, Wire};
use std::alloc::{AllocError, Global};

/// All wires on their tracks and the number of these, or wires of which each stands above another one.
#[derive(Drop)]
pub enum Filled {
    Done(Vec<PlacedWire>, u32),
    Stuck(Vec<Wire>),
}

fn is_held(wire: &Wire, left: &[Wire], constraints: &[Constraint]) -> bool
    ensures { result ≡ waits left.now constraints.now wire.now }
{
    constraints
        .iter()
        .any(|constraint| leads_on(constraint, left, wire.key))
}

fn is_behind(last: Option<Wire>, wire: &Wire) -> bool
    ensures { result ≡ starts_behind last wire.now }
{
    match last {
        None => true,
        Some(last) => {
            last.right < wire.left || (last.right == wire.left && last.net.0 == wire.net.0)
        }
    }
}

fn fits(wire: &Wire, left: &[Wire], constraints: &[Constraint], last: Option<Wire>) -> bool
    ensures { result ≡ has_room left.now constraints.now last wire.now }
{
    !is_held(wire, left, constraints) && is_behind(last, wire)
}

// Fills one track, and gives the wires that are left after it, in order.
fn fill_track(
    alloc: Global,
    left: &[Wire],
    constraints: &[Constraint],
    track: u32,
    placed: &mut Vec<PlacedWire>,
) -> Result<Vec<Wire>, AllocError>
    ensures filled { IfOk result (λ still. (wires : List AWire) → IsChannel wires constraints.now
        → IsFilled wires constraints.now placed.old.items left.now track → length still.items < length left.now
        → IsFilled wires constraints.now placed.new.items still.items (track + 1)) }
    ensures fewer { IfOk result (λ still. length still.items ≤ length left.now) }
    ensures stuck { IfOk result (λ still. length still.items ≡ length left.now
        → All (λ w. waits left.now constraints.now w ≡ true) left.now) }
{
    let mut still = Vec::new(alloc);
    let mut last = None;
    for wire in left {
        if fits(wire, left, constraints, last) {
            placed.push(PlacedWire { wire: *wire, track })?;
            last = Some(*wire);
        } else {
            still.push(*wire)?;
        }
    }
    Ok(still)
}

/// Puts each wire on the least track that the constraints and the wires before it allow.
pub fn fill(
    alloc: Global,
    wires: Vec<Wire>,
    constraints: &[Constraint],
) -> Result<Filled, AllocError>
    requires channel { IsChannel wires.items constraints.now }
    requires few { length wires.items ≤ MOST_WIRES }
    ensures { IfOk result (IsOutcome wires.items constraints.now) }
{
    let mut placed = Vec::new(alloc);
    let mut left = wires;
    let mut tracks = 0;
    while !left.is_empty() {
        let still = fill_track(alloc, left.as_slice(), constraints, tracks, &mut placed)?;
        if still.len() == left.len() {
            return Ok(Filled::Stuck(left));
        }
        left = still;
        tracks += 1;
    }
    Ok(Filled::Done(placed, tracks))
}
