// The wires of a channel, and those of the nets that need a trunk.

ghost use Rattle.std.specs.Prelude.{ℕ, ◌≡◌, ◌+◌, ◌≤◌, ◌<◌, ◌⊎◌, ◌↔◌, true, All};
ghost use Rattle.std.specs.Prelude.{Contains, IfOk, OnOk, IfSome, IfNone, IsTrue, IsPermutation, IsSorted, length};
ghost use Rattle.cell_num.specs.Pins.{IsRail};
ghost use Rattle.row_place.specs.Places.{IsPlacement};
ghost use Rattle.row_place.specs.Trunks.{lines_of, HasPins, HasTrunk};
ghost use Rattle.channel_route.specs.Graph.{has_key};
ghost use Rattle.channel_route.specs.Wires.{IsWire, AreFound, AreWires, wire_cmp};

use cell_num::{NetNo, Pins};
use row_place::Placement;
use std::alloc::{AllocError, Global};

/// A stretch of a net that needs a track: from its first to its last line. No other wire of a channel
/// has its key. Wires are in order of first line, then key.
#[derive(Clone, Copy, Debug, PartialEq, Eq, PartialOrd, Ord)]
pub struct Wire {
    pub left: u32,
    pub key: u32,
    pub right: u32,
    pub net: NetNo,
}

/// A wire on its track.
#[derive(Clone, Copy, Debug, PartialEq, Eq)]
pub struct PlacedWire {
    pub wire: Wire,
    pub track: u32,
}

/// The most wires that a channel may have.
pub const MOST_WIRES: usize = 1_000_000;

/// More trunks than a row has places.
pub const MOST_TRUNKS: usize = 1024;

/// Whether some wire has the key.
pub fn holds_key(wires: &[Wire], key: u32) -> bool
    ensures { result ≡ has_key wires.now key }
{
    wires.iter().any(|wire| wire.key == key)
}

/// The lines of the places of a net: its node places in order, then its gate places.
pub fn lines(alloc: Global, placement: &Placement, net: NetNo) -> Result<Vec<u32>, AllocError>
    ensures { IfOk result (λ lines. lines.items ≡ lines_of placement.now net) }
{
    let mut lines = Vec::new(alloc);
    for node in placement.nodes.as_slice() {
        if node.net.0 == net.0 {
            lines.push(node.line)?;
        }
    }
    for gate in placement.gates.as_slice() {
        if gate.net.0 == net.0 {
            lines.push(gate.line)?;
        }
    }
    Ok(lines)
}

fn least(lines: &[u32]) -> u32
    requires { 0 < length lines.now }
    ensures there { Contains lines.now result }
    ensures least { All (λ line. result ≤ line) lines.now }
{
    let mut least = lines[0];
    for line in lines {
        if *line < least {
            least = *line;
        }
    }
    least
}

fn greatest(lines: &[u32]) -> u32
    requires { 0 < length lines.now }
    ensures there { Contains lines.now result }
    ensures greatest { All (λ line. line ≤ result) lines.now }
{
    let mut greatest = lines[0];
    for line in lines {
        if *line > greatest {
            greatest = *line;
        }
    }
    greatest
}

fn is_wired(pins: &Pins, net: NetNo, places: usize) -> bool
    ensures { IsTrue result ↔ ((IsRail pins.now net → ⊥) × ((2 ≤ places) ⊎ (net.0 < pins.now.pins))) }
{
    !pins.is_rail(net) && (places >= 2 || net.0 < pins.pins)
}

fn wire_of(
    alloc: Global,
    placement: &Placement,
    pins: &Pins,
    net: NetNo,
) -> Result<Option<Wire>, AllocError>
    requires { HasPins placement.now pins.now }
    ensures net { IfOk result (λ wire. IfSome wire (λ w. w.net ≡ net)) }
    ensures some { IfOk result (λ wire. IfSome wire (IsWire placement.now pins.now)) }
    ensures none { IfOk result (λ wire. IfNone wire (HasTrunk placement.now pins.now net → ⊥)) }
{
    let lines = lines(alloc, placement, net)?;
    if lines.is_empty() || !is_wired(pins, net, lines.len()) {
        return Ok(None);
    }
    Ok(Some(Wire {
        left: least(&lines),
        key: net.0,
        right: greatest(&lines),
        net,
    }))
}

// Adds the wire of a net that has a trunk and no wire yet.
fn add_wire(
    alloc: Global,
    wires: &mut Vec<Wire>,
    placement: &Placement,
    pins: &Pins,
    net: NetNo,
) -> Result<(), AllocError>
    requires pins { HasPins placement.now pins.now }
    requires found { AreFound placement.now pins.now wires.old.items }
    ensures found { OnOk result (AreFound placement.now pins.now wires.new.items) }
    ensures there { OnOk result (HasTrunk placement.now pins.now net → has_key wires.new.items net.0 ≡ true) }
    ensures kept { OnOk result ((key : ℕ) → has_key wires.old.items key ≡ true
        → has_key wires.new.items key ≡ true) }
    ensures more { OnOk result (length wires.new.items ≤ length wires.old.items + 1) }
{
    if holds_key(wires.as_slice(), net.0) {
        return Ok(());
    }
    match wire_of(alloc, placement, pins, net)? {
        Some(wire) => {
            wires.push(wire)?;
            Ok(())
        }
        None => Ok(()),
    }
}

fn sort(wires: &mut Vec<Wire>)
    ensures moved { IsPermutation wires.old.items wires.new.items }
    ensures sorted { IsSorted wire_cmp wires.new.items }
{
    wires.sort_unstable();
}

/// A wire for each net with a trunk, from the first to the last line of its places, in order of first
/// line, then net. Its key is the number of its net.
pub fn wires(alloc: Global, placement: &Placement, pins: &Pins) -> Result<Vec<Wire>, AllocError>
    requires placement { IsPlacement placement.now }
    requires pins { HasPins placement.now pins.now }
    ensures wires { IfOk result (λ wires. AreWires placement.now pins.now wires.items) }
    ensures few { IfOk result (λ wires. length wires.items ≤ MOST_TRUNKS) }
{
    let mut wires = Vec::new(alloc);
    for node in placement.nodes.as_slice() {
        add_wire(alloc, &mut wires, placement, pins, node.net)?;
    }
    for gate in placement.gates.as_slice() {
        add_wire(alloc, &mut wires, placement, pins, gate.net)?;
    }
    sort(&mut wires);
    Ok(wires)
}
