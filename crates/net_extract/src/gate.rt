// Classes of gate cells, and the device that each is.
ghost use Rattle.std.specs.Prelude.{◌≡◌, ◌↔◌, ◌<◌, All, IsTrue, IfOk, IfErr, IfSome, None, length, get_or, fold};
ghost use Rattle.box_geom.specs.Rectangle.{IsProper};
ghost use Rattle.net_extract.specs.Devices.{IsOdd};
ghost use Rattle.net_extract.specs.Extraction.{IsDrawn};
ghost use Rattle.net_extract.specs.GateNets.{AreGateNets, wider, point_of, box_of};
ghost use Rattle.net_extract.specs.GateNets.{IsAllGate, AreFound, boxes_of, IsOddFault};
ghost use Rattle.net_extract.specs.Connections.{AreWires, firsts_of, blank};
ghost use Rattle.net_extract.specs.Pieces.{rect_of};
ghost use Rattle.net_extract.specs.declared.fault.ExtractFault.TheVariants.{OddDevice};

use crate::area::is_full;
use crate::connections::{Connections, Wire};
use crate::device::device_of;
use crate::fault::ExtractFault;
use crate::layers::Layers;
use crate::netlist::{Drawn, DrawnList};
use crate::piece::Piece;
use crate::side::whole;
use box_geom::Layer;
use cell_num::NoMemory;
use std::alloc::Global;

fn widened(to: Piece, wire: &Wire, net: usize) -> Piece
    ensures { result ≡ wider net to wire.now }
{
    if wire.net as usize == net {
        Piece {
            low: to.low.min(wire.piece.low),
            left: to.left.min(wire.piece.left),
            kind: to.kind,
            top: to.top.max(wire.piece.top),
            right: to.right.max(wire.piece.right),
        }
    } else {
        to
    }
}

fn point(first: Piece) -> Piece
    ensures { result ≡ point_of first }
{
    Piece {
        low: first.low,
        left: first.left,
        kind: first.kind,
        top: first.low,
        right: first.left,
    }
}

fn bounds(wires: &[Wire], net: usize, first: Piece) -> Piece
    ensures { result ≡ fold (wider net) first wires.now }
{
    let mut all = first;
    for wire in wires {
        all = widened(all, wire, net);
    }
    all
}

/// The bounds of a class of gate cells.
pub(crate) fn box_of_class(gates: &Connections, net: usize) -> Piece
    requires { net < length gates.now.firsts.items }
    ensures { result ≡ box_of gates.now.wires.items gates.now.firsts.items net }
{
    bounds(gates.wires.as_slice(), net, point(gates.firsts[net]))
}

#[tactic(auto, using(crate::proofs::Gating::gate_rules))]
fn is_gate(shapes: &Layers, gate: &Piece) -> bool
    requires { IsProper (rect_of gate.now) }
    ensures { IsTrue result ↔ IsAllGate shapes.now (rect_of gate.now) }
{
    if is_full(shapes, Layer::Active, &whole(gate)) {
        is_full(shapes, Layer::Poly, &whole(gate))
    } else {
        false
    }
}

fn device_of_class(
    shapes: &Layers,
    map: &Connections,
    gates: &Connections,
    net: usize,
) -> Option<Drawn>
    requires net { net < length gates.now.firsts.items }
    requires shapes { All (λ s. IsProper s.rect) shapes.now }
    requires map { AreWires map.now.deck shapes.now map.now.wires.items map.now.firsts.items }
    requires gates { AreGateNets shapes.now gates.now.wires.items gates.now.firsts.items }
    ensures some { IfSome result (λ d. IsDrawn map.now.deck shapes.now (firsts_of map.now.firsts.items)
        (rect_of (box_of gates.now.wires.items gates.now.firsts.items net)) d) }
    ensures none { result ≡ None → IsOdd map.now.deck shapes.now (get_or gates.now.firsts.items net blank).left
        (get_or gates.now.firsts.items net blank).low }
{
    let gate = box_of_class(gates, net);
    if is_gate(shapes, &gate) {
        device_of(shapes, map, &gate)
    } else {
        None
    }
}

fn odd(first: Piece) -> ExtractFault
    ensures { result ≡ OddDevice first.left first.low }
{
    ExtractFault::OddDevice {
        x: first.left,
        y: first.low,
    }
}

/// The devices of all classes of gate cells, by their first cells; the first class that is none is refused.
pub(crate) fn devices(
    alloc: Global,
    shapes: &Layers,
    map: &Connections,
    gates: &Connections,
) -> Result<DrawnList, ExtractFault>
    requires shapes { All (λ s. IsProper s.rect) shapes.now }
    requires map { AreWires map.now.deck shapes.now map.now.wires.items map.now.firsts.items }
    requires gates { AreGateNets shapes.now gates.now.wires.items gates.now.firsts.items }
    ensures ok { IfOk result (AreFound map.now.deck shapes.now (firsts_of map.now.firsts.items)
        (boxes_of gates.now.wires.items gates.now.firsts.items)) }
    ensures odd { IfErr result (IsOddFault map.now.deck shapes.now) }
{
    let mut devices = DrawnList::new(alloc);
    for net in 0..gates.firsts.len() {
        match device_of_class(shapes, map, gates, net) {
            Some(device) => match devices.push(device) {
                Ok(()) => {}
                Err(NoMemory) => return Err(ExtractFault::NoMemory),
            },
            None => return Err(odd(gates.firsts[net])),
        }
    }
    Ok(devices)
}
