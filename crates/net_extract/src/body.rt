// The bodies of devices: for each device the net of the taps of its well or of the substrate.
ghost use Rattle.std.specs.Prelude.{◌≡◌, ◌++◌, ◌<◌, IfOk, OnOk, option_to_list};
ghost use Rattle.net_extract.specs.GateNets.{boxes_of};
ghost use Rattle.net_extract.specs.Pieces.{rect_of};
ghost use Rattle.net_extract.specs.Ties.{tap_of, taps_in, net_of_tie, body_in, bodies_in};

use crate::connections::{Connections, Wire};
use crate::gate::box_of_class;
use crate::netlist::BodyList;
use crate::piece::Piece;
use crate::tie::{SUBSTRATE, tie_of, well_tie};
use box_geom::Shape;
use cell_num::NoMemory;
use std::alloc::Global;

/// A tie, and the net of a tap that has it.
#[derive(Clone, Copy, Debug)]
pub struct Tap {
    pub tie: u64,
    pub net: u32,
}

fn tap_of(shapes: &[Shape], wells: &[Wire], wire: &Wire) -> Option<Tap>
    ensures { result ≡ tap_of shapes.now wells.now wire.now }
{
    match tie_of(shapes, wells, &wire.piece) {
        Some(tie) => Some(Tap { tie, net: wire.net }),
        None => None,
    }
}

fn add_tap(
    taps: &mut Vec<Tap>,
    shapes: &[Shape],
    wells: &[Wire],
    wire: &Wire,
) -> Result<(), NoMemory>
    ensures { OnOk result (taps.new.items ≡ taps.old.items ++ option_to_list (tap_of shapes.now wells.now wire.now)) }
{
    match tap_of(shapes, wells, wire) {
        Some(tap) => taps.push(tap).map_err(|_| NoMemory),
        None => Ok(()),
    }
}

/// The taps of all wires.
pub(crate) fn taps(
    alloc: Global,
    shapes: &[Shape],
    wells: &[Wire],
    wires: &[Wire],
) -> Result<Vec<Tap>, NoMemory>
    ensures { IfOk result (λ ts. ts.items ≡ taps_in shapes.now wells.now wires.now) }
{
    let mut taps = Vec::new(alloc);
    for wire in wires {
        add_tap(&mut taps, shapes, wells, wire)?;
    }
    Ok(taps)
}

fn net_of_tie(taps: &[Tap], tie: u64) -> Option<u32>
    ensures { result ≡ net_of_tie taps.now tie }
{
    taps.iter().find(|tap| tap.tie == tie).map(|tap| tap.net)
}

fn body(taps: &[Tap], wells: &[Wire], gate: &Piece) -> Option<u32>
    ensures { result ≡ body_in taps.now wells.now (rect_of gate.now) }
{
    match well_tie(wells, gate.left, gate.low) {
        Some(tie) => net_of_tie(taps, tie),
        None => net_of_tie(taps, SUBSTRATE),
    }
}

/// The bodies of the devices whose gates are the classes of gate cells.
pub(crate) fn bodies(
    alloc: Global,
    taps: &[Tap],
    wells: &[Wire],
    gates: &Connections,
) -> Result<BodyList, NoMemory>
    ensures { IfOk result (λ bs. bs ≡ bodies_in taps.now wells.now
        (boxes_of gates.now.wires.items gates.now.firsts.items)) }
{
    let mut bodies = BodyList::new(alloc);
    for class in 0..gates.firsts.len() {
        bodies.push(body(taps, wells, &box_of_class(gates, class)))?;
    }
    Ok(bodies)
}
