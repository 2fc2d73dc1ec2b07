// The nets of a drawing, to be looked up by cell, by number and by label.
ghost use Rattle.std.specs.Prelude.{◌≡◌, ◌<◌, [], length, get_or, IfOk, IfErr, IfSome};
ghost use Rattle.std.specs.List.{All};
ghost use Rattle.box_geom.specs.Regions.{IsBlock};
ghost use Rattle.scmos_rules.specs.declared.rules.Deck.TheVariants.{Plain};
ghost use Rattle.net_extract.specs.Extraction.{ExtractRefused, SaysTooMany};
ghost use Rattle.net_extract.specs.NetMaps.{AreCellsOf, Maps, net_named, net_of};

use crate::drawing::{Mapped, map_drawing};
use crate::fault::ExtractFault;
use crate::label_nets::{by_name, net_of_name};
use crate::naming::NetLabel;
use crate::net_piece::{NetPiece, blocks_of, net_at, net_pieces};
use box_geom::{Block, Layer, Shapes};
use cell_num::{Name, Names, NoMemory};
use scmos_rules::Deck;
use std::alloc::Global;
use std::marker::Model;

/// The nets of a drawing by their numbers, which are those of its netlist. Contracts see the conductor of
/// all layers with the nets of its rectangles, labels with their nets, and the names of all nets.
#[derive(Debug, Drop)]
pub struct NetMap {
    pieces: Vec<NetPiece>,
    labels: Vec<NetLabel>,
    names: Names,
}

impl Model for NetMap {
    ghost use Rattle.net_extract.specs.NetMaps.{NetMap as NetMapOf, AreByName, AreOfNets, HaveNames};

    ghost Value = { NetMapOf };

    ghost view = { λ m. record { pieces = m.pieces.items; labels = m.labels.items; names = m.names } };

    ghost invariant = { λ m. AreOfNets m.pieces.items × AreByName m.labels.items
        × HaveNames m.pieces.items m.labels.items m.names };
}

impl NetMap {
    /// The nets of a drawing. It is refused where it has no netlist, for the same reason.
    pub fn new(alloc: Global, shapes: &Shapes) -> Result<NetMap, ExtractFault>
        ensures maps { IfOk result (λ m. Maps Plain shapes.now m) }
        ensures refused { IfErr result (λ f. ExtractRefused Plain shapes.now f) }
        ensures many { SaysTooMany shapes.now result }
    {
        let drawing = map_drawing(alloc, shapes, Deck::Plain)?;
        let Ok(pieces) = net_pieces(alloc, drawing.connections.wires.as_slice()) else {
            return Err(ExtractFault::NoMemory);
        };
        let Mapped { named, .. } = drawing;
        Ok(NetMap {
            pieces,
            labels: by_name(named.held),
            names: named.names,
        })
    }

    /// The net of the conductor of a layer in the cell whose lower left corner is (x, y), in grid units;
    /// None where there is no conductor of that layer.
    pub fn net_of(&self, layer: Layer, x: i32, y: i32) -> Option<u32>
        ensures net { result ≡ net_of self.now layer x y }
        ensures within { IfSome result (λ n. n < length self.now.names) }
    {
        net_at(self.pieces.as_slice(), layer, i64::from(x), i64::from(y))
    }

    /// The name of a net: its label, or `_` and its number where it has none.
    pub fn name(&self, net: u32) -> &Name
        requires { net < length self.now.names }
        ensures { result.now ≡ get_or self.now.names net [] }
    {
        &self.names.as_slice()[net as usize]
    }

    /// The net that the labels of a name are in; None where there is no such label.
    pub fn net_named(&self, name: &[u8]) -> Option<u32>
        ensures net { result ≡ net_named self.now name.now }
        ensures within { IfSome result (λ n. n < length self.now.names) }
    {
        net_of_name(self.labels.as_slice(), name)
    }

    /// The cells of a net on a layer, as rectangles that may overlap.
    pub fn pieces(&self, alloc: Global, net: u32, layer: Layer) -> Result<Vec<Block>, NoMemory>
        ensures blocks { IfOk result (λ bs. All IsBlock bs.items) }
        ensures cells { IfOk result (λ bs. AreCellsOf self.now net layer bs.items) }
    {
        blocks_of(alloc, self.pieces.as_slice(), net, layer)
    }
}
