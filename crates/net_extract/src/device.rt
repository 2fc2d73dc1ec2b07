// Devices: gates between two sides of diffusion.
ghost use Rattle.std.specs.Prelude.{◌≡◌, ◌↔◌, All, IsTrue, IfSome, None};
ghost use Rattle.box_geom.specs.Rectangle.{IsProper};
ghost use Rattle.net_extract.specs.Areas.{cells_in};
ghost use Rattle.net_extract.specs.Devices.{IsSide, IsGateBox, IsSomeDevice, diffusion_of};
ghost use Rattle.net_extract.specs.Extraction.{IsDrawn};
ghost use Rattle.net_extract.specs.Connections.{AreWires, firsts_of};
ghost use Rattle.net_extract.specs.Nets.{Site};
ghost use Rattle.net_extract.specs.Pieces.{rect_of};
ghost use Rattle.net_extract.specs.Sides.{IsInRow, IsDiffusion, IsSideNet, IsAlong};
ghost use Rattle.net_extract.specs.Sides.{IsNotAlong, AreClosed, AreSideNets, drawn_as};
ghost use Rattle.net_extract.specs.Lookups.{net_in};
ghost use Rattle.net_extract.specs.declared.piece.Conductor.TheVariants.{Poly};

use crate::area::{Area, is_free, is_full};
use crate::connections::{Connections, Wire};
use crate::layers::Layers;
use crate::lookup::net_of_cell;
use crate::netlist::Drawn;
use crate::piece::{Conductor, Piece};
use crate::side::{Current, drain, high_side, low_side, source, whole};
use box_geom::Layer;
use cell_num::Row;

#[tactic(auto, using(crate::proofs::Siding::row_rules))]
fn is_in_row(shapes: &Layers, row: Row, area: &Area) -> bool
    requires area { IsProper (cells_in area.now) }
    requires shapes { All (λ s. IsProper s.rect) shapes.now }
    ensures { IsTrue result ↔ IsInRow shapes.now row (cells_in area.now) }
{
    match row {
        Row::P => is_full(shapes, Layer::Well, area),
        Row::N => is_free(shapes, Layer::Well, area),
    }
}

#[tactic(auto, using(crate::proofs::Siding::diffusion_rules))]
fn is_diffusion(shapes: &Layers, row: Row, area: &Area) -> bool
    requires area { IsProper (cells_in area.now) }
    requires shapes { All (λ s. IsProper s.rect) shapes.now }
    ensures { IsTrue result ↔ IsDiffusion shapes.now row (cells_in area.now) }
{
    if is_full(shapes, Layer::Active, area) {
        if is_free(shapes, Layer::Poly, area) {
            return is_in_row(shapes, row, area);
        }
    }
    false
}

fn diffusion(row: Row) -> Conductor
    ensures { result ≡ diffusion_of row }
{
    match row {
        Row::P => Conductor::PDiffusion,
        Row::N => Conductor::NDiffusion,
    }
}

// The net along an area of diffusion of the row, whose cells are all of one net; None where it is no such area.
fn side_net(shapes: &Layers, map: &Connections, row: Row, area: &Area) -> Option<u32>
    requires area { IsProper (cells_in area.now) }
    requires shapes { All (λ s. IsProper s.rect) shapes.now }
    requires map { AreWires map.now.deck shapes.now map.now.wires.items map.now.firsts.items }
    ensures some { IfSome result (λ n. IsSideNet map.now.deck shapes.now (firsts_of map.now.firsts.items) row
        (cells_in area.now) n) }
    ensures none { result ≡ None → (a : Site) → IsSide map.now.deck shapes.now (diffusion_of row)
        (cells_in area.now) a → ⊥ }
{
    if !is_diffusion(shapes, row, area) {
        return None;
    }
    net_of_cell(map.wires.as_slice(), diffusion(row), area.x1, area.y1)
}

fn are_ends_closed(shapes: &Layers, gate: &Piece, current: Current) -> bool
    requires gate { IsProper (rect_of gate.now) }
    requires shapes { All (λ s. IsProper s.rect) shapes.now }
    ensures { IsTrue result ↔ AreClosed shapes.now current (rect_of gate.now) }
{
    if is_free(shapes, Layer::Active, &low_side(gate, current)) {
        is_free(shapes, Layer::Active, &high_side(gate, current))
    } else {
        false
    }
}

fn drawn(row: Row, gate: u32, ends: (u32, u32), piece: &Piece, current: Current) -> Drawn
    ensures { result ≡ drawn_as row gate ends piece.now current }
{
    let across = piece.right.abs_diff(piece.left);
    let upward = piece.top.abs_diff(piece.low);
    let (width, length) = match current {
        Current::Rightward => (upward, across),
        Current::Upward => (across, upward),
    };
    Drawn {
        row,
        gate,
        lo: ends.0.min(ends.1),
        hi: ends.0.max(ends.1),
        width,
        length,
    }
}

fn gate_net(wires: &[Wire], gate: &Piece) -> Option<u32>
    ensures { result ≡ net_in wires.now Poly gate.now.left gate.now.low }
{
    let (x, y) = (i64::from(gate.left), i64::from(gate.low));
    net_of_cell(wires, Conductor::Poly, x, y)
}

// The nets along the two sides that the current flows through.
fn side_nets(
    shapes: &Layers,
    map: &Connections,
    row: Row,
    gate: &Piece,
    current: Current,
) -> Option<(u32, u32)>
    requires gate { IsProper (rect_of gate.now) }
    requires shapes { All (λ s. IsProper s.rect) shapes.now }
    requires map { AreWires map.now.deck shapes.now map.now.wires.items map.now.firsts.items }
    ensures some { IfSome result (λ ends. AreSideNets map.now.deck shapes.now (firsts_of map.now.firsts.items)
        (rect_of gate.now) row current ends) }
    ensures none { result ≡ None → IsNotAlong map.now.deck shapes.now (rect_of gate.now) row current }
{
    match side_net(shapes, map, row, &source(gate, current)) {
        Some(one) => match side_net(shapes, map, row, &drain(gate, current)) {
            Some(other) => Some((one, other)),
            None => None,
        },
        None => None,
    }
}

// The device of a gate with the current in one direction; None where it is none.
fn device_along(
    shapes: &Layers,
    map: &Connections,
    row: Row,
    gate: &Piece,
    current: Current,
) -> Option<Drawn>
    requires gate { IsGateBox shapes.now (rect_of gate.now) }
    requires shapes { All (λ s. IsProper s.rect) shapes.now }
    requires map { AreWires map.now.deck shapes.now map.now.wires.items map.now.firsts.items }
    ensures some { IfSome result (λ d. IsAlong map.now.deck shapes.now (firsts_of map.now.firsts.items)
        (rect_of gate.now) row current d) }
    ensures none { result ≡ None → IsNotAlong map.now.deck shapes.now (rect_of gate.now) row current }
{
    if !are_ends_closed(shapes, gate, current) {
        return None;
    }
    match side_nets(shapes, map, row, gate, current) {
        Some(ends) => match gate_net(map.wires.as_slice(), gate) {
            Some(net) => Some(drawn(row, net, ends, gate, current)),
            None => None,
        },
        None => None,
    }
}

fn device_in_row(shapes: &Layers, map: &Connections, row: Row, gate: &Piece) -> Option<Drawn>
    requires gate { IsGateBox shapes.now (rect_of gate.now) }
    requires shapes { All (λ s. IsProper s.rect) shapes.now }
    requires map { AreWires map.now.deck shapes.now map.now.wires.items map.now.firsts.items }
    requires row { IsInRow shapes.now row (rect_of gate.now) }
    ensures some { IfSome result (λ d. IsDrawn map.now.deck shapes.now (firsts_of map.now.firsts.items)
        (rect_of gate.now) d) }
    ensures none { result ≡ None → IsSomeDevice map.now.deck shapes.now (rect_of gate.now) → ⊥ }
{
    match device_along(shapes, map, row, gate, Current::Rightward) {
        Some(device) => Some(device),
        None => device_along(shapes, map, row, gate, Current::Upward),
    }
}

/// The device of a gate box; None where it is none.
pub(crate) fn device_of(shapes: &Layers, map: &Connections, gate: &Piece) -> Option<Drawn>
    requires gate { IsGateBox shapes.now (rect_of gate.now) }
    requires shapes { All (λ s. IsProper s.rect) shapes.now }
    requires map { AreWires map.now.deck shapes.now map.now.wires.items map.now.firsts.items }
    ensures some { IfSome result (λ d. IsDrawn map.now.deck shapes.now (firsts_of map.now.firsts.items)
        (rect_of gate.now) d) }
    ensures none { result ≡ None → IsSomeDevice map.now.deck shapes.now (rect_of gate.now) → ⊥ }
{
    if is_in_row(shapes, Row::P, &whole(gate)) {
        return device_in_row(shapes, map, Row::P, gate);
    }
    if is_in_row(shapes, Row::N, &whole(gate)) {
        return device_in_row(shapes, map, Row::N, gate);
    }
    None
}
