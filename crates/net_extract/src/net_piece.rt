// Conductor by layers, with the nets of its rectangles.
ghost use Rattle.std.specs.Prelude.{◌≡◌, IfOk};
ghost use Rattle.box_geom.specs.Comparisons.{holding};
ghost use Rattle.net_extract.specs.NetMaps.{at_cell, blocks_of, net_in, net_piece, net_pieces, of_net};
ghost use Rattle.net_extract.specs.Nets.{layer_of};

use crate::connections::Wire;
use crate::lookup::is_within;
use crate::piece::Conductor;
use box_geom::{Block, Layer};
use cell_num::NoMemory;
use std::alloc::Global;

/// A rectangle of conductor of a layer, and the number of its net.
#[derive(Clone, Copy, Debug)]
pub struct NetPiece {
    pub layer: Layer,
    pub block: Block,
    pub net: u32,
}

fn layer_of(kind: Conductor) -> Layer
    ensures { result ≡ layer_of kind }
{
    match kind {
        Conductor::PDiffusion | Conductor::NDiffusion => Layer::Active,
        Conductor::Poly => Layer::Poly,
        Conductor::Metal1 => Layer::Metal1,
        Conductor::Metal2 => Layer::Metal2,
    }
}

fn net_piece(wire: &Wire) -> NetPiece
    ensures { result ≡ net_piece wire.now }
{
    NetPiece {
        layer: layer_of(wire.piece.kind),
        block: Block {
            x1: wire.piece.left,
            y1: wire.piece.low,
            x2: wire.piece.right,
            y2: wire.piece.top,
        },
        net: wire.net,
    }
}

/// The connections of a drawing by layers.
pub(crate) fn net_pieces(alloc: Global, wires: &[Wire]) -> Result<Vec<NetPiece>, NoMemory>
    ensures { IfOk result (λ ps. ps.items ≡ net_pieces wires.now) }
{
    let mut pieces = Vec::new(alloc);
    for wire in wires {
        pieces.push(net_piece(wire)).map_err(|_| NoMemory)?;
    }
    Ok(pieces)
}

fn does_hold(block: &Block, x: i64, y: i64) -> bool
    ensures { result ≡ holding block.now x y }
{
    is_within(block.x1, block.x2, x) && is_within(block.y1, block.y2, y)
}

fn is_there(piece: &NetPiece, layer: Layer, x: i64, y: i64) -> bool
    ensures { result ≡ at_cell layer x y piece.now }
{
    piece.layer == layer && does_hold(&piece.block, x, y)
}

/// The net of the conductor of a layer in a cell; None where there is none.
pub(crate) fn net_at(pieces: &[NetPiece], layer: Layer, x: i64, y: i64) -> Option<u32>
    ensures { result ≡ net_in pieces.now layer x y }
{
    pieces
        .iter()
        .find(|piece| is_there(piece, layer, x, y))
        .map(|piece| piece.net)
}

fn is_of(piece: &NetPiece, net: u32, layer: Layer) -> bool
    ensures { result ≡ of_net net layer piece.now }
{
    piece.layer == layer && piece.net == net
}

/// The rectangles of a net on a layer.
pub(crate) fn blocks_of(
    alloc: Global,
    pieces: &[NetPiece],
    net: u32,
    layer: Layer,
) -> Result<Vec<Block>, NoMemory>
    ensures { IfOk result (λ bs. bs.items ≡ blocks_of net layer pieces.now) }
{
    let mut blocks = Vec::new(alloc);
    for piece in pieces {
        if is_of(piece, net, layer) {
            blocks.push(piece.block).map_err(|_| NoMemory)?;
        }
    }
    Ok(blocks)
}
