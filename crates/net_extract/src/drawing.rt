// The netlist of a drawing.
ghost use Rattle.std.specs.Prelude.{◌≡◌, ◌≤◌, length, All, IfOk, IfErr, OnOk, None};
ghost use Rattle.std.specs.List.{find};
ghost use Rattle.box_geom.specs.Layers.{AreWithinLimits};
ghost use Rattle.box_geom.specs.Rectangle.{IsRectangle};
ghost use Rattle.scmos_rules.specs.declared.rules.Deck.{Deck};
ghost use Rattle.scmos_rules.specs.declared.rules.Deck.TheVariants.{Plain, Taps};
ghost use Rattle.net_extract.specs.Bodies.{AreBodies, ExtractsBodies};
ghost use Rattle.net_extract.specs.Connections.{AreWires, firsts_of};
ghost use Rattle.net_extract.specs.Corners.{HaveFewSides};
ghost use Rattle.net_extract.specs.Extraction.{AreFew, AreRegular, Extracts, ExtractRefused, SaysTooMany};
ghost use Rattle.net_extract.specs.GateNets.{AreGateNets, AreWells, AreFound, boxes_of};
ghost use Rattle.net_extract.specs.Lookups.{is_lost};
ghost use Rattle.net_extract.specs.Steps.{AreNamed, IsMapped};

use crate::body::{bodies, taps};
use crate::class_map::{gate_map, well_map};
use crate::connections::{Connections, Wire, connections_of, count_of, tapped_connections};
use crate::fault::ExtractFault;
use crate::gate::devices;
use crate::layers::Layers;
use crate::lookup::{all_net_labels, check_strays};
use crate::naming::{NetLabel, net_names};
use crate::netlist::{BodyList, BodyNetlist, DrawnList, Netlist};
use box_geom::{Shape, Shapes};
use cell_num::{Names, NoMemory};
use scmos_rules::Deck;
use std::alloc::Global;

const MOST_RECTS: usize = 10_000;

const MOST_LABELS: usize = 2_000;

/// The labels on layers of conductors with their nets, and the names of all nets by them.
#[derive(Drop)]
pub struct Named {
    pub held: Vec<NetLabel>,
    pub names: Names,
}

/// What a drawing that is not refused consists of; the wires of well cells are there where a deck ties taps.
#[derive(Drop)]
pub struct Mapped {
    pub connections: Connections,
    pub wells: Vec<Wire>,
    pub gates: Connections,
    pub devices: DrawnList,
    pub named: Named,
}

#[tactic(auto, using(crate::proofs::Extracting::count_rules))]
fn check_counts(shapes: &Shapes) -> Result<(), ExtractFault>
    ensures few { OnOk result (AreFew shapes.now) }
    ensures many { IfErr result (λ f. (deck : Deck) → ExtractRefused deck shapes.now f) }
    ensures says { SaysTooMany shapes.now result }
{
    let rects = shapes.rects.len();
    let labels = shapes.labels.len();
    if rects > MOST_RECTS {
        return Err(ExtractFault::TooMany {
            count: rects as u64,
        });
    }
    if labels > MOST_LABELS {
        return Err(ExtractFault::TooMany {
            count: labels as u64,
        });
    }
    Ok(())
}

fn all_devices(
    alloc: Global,
    shapes: &Shapes,
    map: &Connections,
    gates: &Connections,
) -> Result<DrawnList, ExtractFault>
    requires few { AreFew shapes.now }
    requires limits { AreWithinLimits shapes.now.rects }
    requires map { AreWires map.now.deck shapes.now.rects map.now.wires.items map.now.firsts.items }
    requires gates { AreGateNets shapes.now.rects gates.now.wires.items gates.now.firsts.items }
    ensures ok { IfOk result (AreFound map.now.deck shapes.now.rects (firsts_of map.now.firsts.items)
        (boxes_of gates.now.wires.items gates.now.firsts.items)) }
    ensures refused { IfErr result (λ f. ExtractRefused map.now.deck shapes.now f) }
{
    let Ok(layers) = Layers::new(alloc, shapes.rects.as_slice()) else {
        return Err(ExtractFault::NoMemory);
    };
    devices(alloc, &layers, map, gates)
}

fn named_by_labels(alloc: Global, shapes: &Shapes, map: &Connections) -> Result<Named, ExtractFault>
    requires regular { AreRegular map.now.deck shapes.now }
    requires map { AreWires map.now.deck shapes.now.rects map.now.wires.items map.now.firsts.items }
    requires held { find (is_lost map.now.wires.items) shapes.now.labels ≡ None }
    requires few { length map.now.firsts.items ≤ 2000000000 }
    ensures ok { IfOk result (AreNamed map.now.deck shapes.now (firsts_of map.now.firsts.items)) }
    ensures refused { IfErr result (λ f. ExtractRefused map.now.deck shapes.now f) }
{
    let Ok(held) = all_net_labels(alloc, map.wires.as_slice(), shapes.labels.as_slice()) else {
        return Err(ExtractFault::NoMemory);
    };
    let count = count_of(map.firsts.as_slice());
    let names = net_names(alloc, held.as_slice(), count)?;
    Ok(Named { held, names })
}

fn all_named(alloc: Global, shapes: &Shapes, map: &Connections) -> Result<Named, ExtractFault>
    requires regular { AreRegular map.now.deck shapes.now }
    requires map { AreWires map.now.deck shapes.now.rects map.now.wires.items map.now.firsts.items }
    requires few { length map.now.firsts.items ≤ 2000000000 }
    ensures ok { IfOk result (AreNamed map.now.deck shapes.now (firsts_of map.now.firsts.items)) }
    ensures refused { IfErr result (λ f. ExtractRefused map.now.deck shapes.now f) }
{
    check_strays(alloc, map.wires.as_slice(), shapes.labels.as_slice())?;
    named_by_labels(alloc, shapes, map)
}

// The wires of the well cells, where a deck ties taps.
#[tactic(auto, using(crate::proofs::PolyClasses::well_rules))]
fn wells_by(alloc: Global, shapes: &[Shape], deck: Deck) -> Result<Vec<Wire>, NoMemory>
    requires limits { All (λ s. IsRectangle s.rect) shapes.now }
    requires few { HaveFewSides shapes.now }
    ensures { IfOk result (λ ws. AreWells deck shapes.now ws.items) }
{
    match deck {
        Deck::Plain => Ok(Vec::new(alloc)),
        Deck::Taps => Ok(well_map(alloc, shapes)?.wires),
    }
}

// The nets of a drawing by the bonds of a deck.
fn connections_by(
    alloc: Global,
    shapes: &[Shape],
    deck: Deck,
    wells: &[Wire],
) -> Result<Connections, NoMemory>
    requires limits { All (λ s. IsRectangle s.rect) shapes.now }
    requires few { HaveFewSides shapes.now }
    requires wells { AreWells deck shapes.now wells.now }
    ensures deck { IfOk result (λ m. m.deck ≡ deck) }
    ensures wires { IfOk result (λ m. AreWires m.deck shapes.now m.wires.items m.firsts.items) }
    ensures few { IfOk result (λ m. length m.firsts.items ≤ 2000000000) }
{
    match deck {
        Deck::Plain => connections_of(alloc, shapes),
        Deck::Taps => tapped_connections(alloc, shapes, wells),
    }
}

fn map_few(alloc: Global, shapes: &Shapes, deck: Deck) -> Result<Mapped, ExtractFault>
    requires few { AreFew shapes.now }
    requires limits { AreWithinLimits shapes.now.rects }
    ensures ok { IfOk result (IsMapped deck shapes.now) }
    ensures refused { IfErr result (λ f. ExtractRefused deck shapes.now f) }
{
    let rects = shapes.rects.as_slice();
    let Ok(wells) = wells_by(alloc, rects, deck) else {
        return Err(ExtractFault::NoMemory);
    };
    let Ok(connections) = connections_by(alloc, rects, deck, wells.as_slice()) else {
        return Err(ExtractFault::NoMemory);
    };
    let Ok(gates) = gate_map(alloc, rects) else {
        return Err(ExtractFault::NoMemory);
    };
    let devices = all_devices(alloc, shapes, &connections, &gates)?;
    let named = all_named(alloc, shapes, &connections)?;
    Ok(Mapped {
        connections,
        wells,
        gates,
        devices,
        named,
    })
}

/// All steps of extraction by a deck, in the order of the faults.
#[tactic(auto, using(crate::proofs::Extracting::count_rules))]
pub(crate) fn map_drawing(
    alloc: Global,
    shapes: &Shapes,
    deck: Deck,
) -> Result<Mapped, ExtractFault>
    ensures ok { IfOk result (IsMapped deck shapes.now) }
    ensures refused { IfErr result (λ f. ExtractRefused deck shapes.now f) }
    ensures many { SaysTooMany shapes.now result }
{
    check_counts(shapes)?;
    shapes.show_limits();
    map_few(alloc, shapes, deck)
}

/// The nets and devices of a drawing: nets by number with their names, devices by the nets at their gates
/// and sides. It is refused above 10,000 rectangles or 2,000 labels, where a class of gate cells is no
/// device, where a label belongs to no conductor cell, and where labels and nets do not agree.
#[tactic(auto, using(crate::proofs::Extracting::count_rules))]
pub fn extract(alloc: Global, shapes: &Shapes) -> Result<Netlist, ExtractFault>
    ensures ok { IfOk result (λ n. Extracts Plain shapes.now n) }
    ensures refused { IfErr result (λ f. ExtractRefused Plain shapes.now f) }
    ensures many { SaysTooMany shapes.now result }
{
    let Mapped { devices, named, .. } = map_drawing(alloc, shapes, Deck::Plain)?;
    Ok(Netlist {
        names: named.names,
        devices,
    })
}

// The bodies of the devices of a drawing.
fn all_bodies(alloc: Global, shapes: &Shapes, mapped: &Mapped) -> Result<BodyList, NoMemory>
    requires { IsMapped Taps shapes.now mapped.now }
    ensures { IfOk result (λ bs. AreBodies shapes.now.rects (firsts_of mapped.now.connections.firsts.items)
        (boxes_of mapped.now.gates.wires.items mapped.now.gates.firsts.items) mapped.now.devices bs) }
{
    let rects = shapes.rects.as_slice();
    let wires = mapped.connections.wires.as_slice();
    let wells = mapped.wells.as_slice();
    let taps = taps(alloc, rects, wells, wires)?;
    bodies(alloc, taps.as_slice(), wells, &mapped.gates)
}

/// The nets and devices of a drawing with taps, as `extract` gives them, where taps of the well tie the nets in one
/// class of well cells, and taps of the substrate all nets that have one; and for each device the net of its body.
pub fn extract_bodies(alloc: Global, shapes: &Shapes) -> Result<BodyNetlist, ExtractFault>
    ensures ok { IfOk result (λ b. ExtractsBodies shapes.now b) }
    ensures refused { IfErr result (λ f. ExtractRefused Taps shapes.now f) }
    ensures many { SaysTooMany shapes.now result }
{
    let mapped = map_drawing(alloc, shapes, Deck::Taps)?;
    let Ok(bodies) = all_bodies(alloc, shapes, &mapped) else {
        return Err(ExtractFault::NoMemory);
    };
    let Mapped { devices, named, .. } = mapped;
    Ok(BodyNetlist {
        netlist: Netlist {
            names: named.names,
            devices,
        },
        bodies,
    })
}
