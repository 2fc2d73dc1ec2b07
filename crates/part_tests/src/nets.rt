// Nets, devices and bodies of drawings, and why a drawing has none.
use crate::drawings::{Sides, add_label, shapes_of};
use crate::texts::prints;
use box_geom::{LabelList, Layer, Shapes};
use cell_num::NoMemory;
use net_extract::{BodyNetlist, ExtractFault, Netlist, extract, extract_bodies};
use std::alloc::{AllocError, Global};
use std::test::Fail;

// A label of one letter at a place.
type Letter = (u8, Layer, i32, i32);

fn add_labels(alloc: Global, labels: &mut LabelList, letters: &[Letter]) -> Result<(), NoMemory> {
    for (letter, layer, x, y) in letters {
        add_label(alloc, labels, &[*letter], *layer, [*x, *y])?;
    }
    Ok(())
}

fn drawing(alloc: Global, table: &[(Layer, Sides)], letters: &[Letter]) -> Result<Shapes, Fail> {
    let mut shapes = shapes_of(alloc, table)?;
    add_labels(alloc, &mut shapes.labels, letters)?;
    Ok(shapes)
}

// Two gates on one line of poly, their right sides joined over metal2.
const INVERTER: [(Layer, Sides); 16] = [
    (Layer::Well, [0, 20, 30, 44]),
    (Layer::Active, [2, 2, 22, 12]),
    (Layer::Active, [2, 24, 22, 38]),
    (Layer::Poly, [10, 0, 14, 40]),
    (Layer::Contact, [4, 4, 8, 8]),
    (Layer::Contact, [16, 4, 20, 8]),
    (Layer::Contact, [4, 26, 8, 30]),
    (Layer::Contact, [16, 26, 20, 30]),
    (Layer::Metal1, [3, 3, 9, 9]),
    (Layer::Metal1, [15, 3, 21, 9]),
    (Layer::Metal1, [3, 25, 9, 31]),
    (Layer::Metal1, [15, 25, 21, 31]),
    (Layer::Via, [16, 4, 20, 8]),
    (Layer::Via, [16, 26, 20, 30]),
    (Layer::Metal2, [15, 3, 21, 31]),
    (Layer::PSelect, [0, 22, 24, 40]),
];

// It has no clauses, so that those of `extract` stay out of the tests' proofs.
pub fn netlist(alloc: Global, shapes: &Shapes) -> Result<Netlist, ExtractFault> {
    extract(alloc, shapes)
}

fn prints_netlist(alloc: Global, shapes: &Shapes, want: &str) -> Result<bool, AllocError> {
    prints(alloc, &netlist(alloc, shapes), want)
}

// Whether this is printed of the netlist of a drawing.
fn is_told(
    alloc: Global,
    table: &[(Layer, Sides)],
    letters: &[Letter],
    want: &str,
) -> Result<bool, Fail> {
    let shapes = drawing(alloc, table, letters)?;
    let is = prints_netlist(alloc, &shapes, want);
    drop(shapes);
    Ok(is?)
}

// A gate with an end on diffusion.
const ODD: [(Layer, Sides); 2] = [
    (Layer::Active, [0, 0, 10, 10]),
    (Layer::Poly, [4, 2, 8, 12]),
];

// The two devices of an inverter between the nets `_0`, `g`, `y` and `v`: the gate has no label.
const INVERTER_NETS: &str =
    "Ok(Netlist { names: List { items: [List { items: [95, 48] }, List { items: [103] }, \
    List { items: [121] }, List { items: [118] }] }, devices: List { items: [\
    Drawn { row: N, gate: 0, lo: 1, hi: 2, width: 10, length: 4 }, \
    Drawn { row: P, gate: 0, lo: 2, hi: 3, width: 14, length: 4 }] } })";

// An inverter; then one label in two nets, two labels in one, a label off the conductor, and a gate that is no device.
const DRAWINGS: [(&[(Layer, Sides)], &[Letter], &str); 5] = [
    (
        &INVERTER,
        &[
            (b'v', Layer::Metal1, 3, 25),
            (b'y', Layer::Metal2, 15, 3),
            (b'g', Layer::Metal1, 3, 3),
        ],
        INVERTER_NETS,
    ),
    (
        &INVERTER,
        &[(b'a', Layer::Metal1, 15, 3), (b'a', Layer::Poly, 10, 0)],
        "Err(Split { name: List { items: [97] } })",
    ),
    (
        &INVERTER,
        &[(b'y', Layer::Metal1, 15, 3), (b'q', Layer::Metal1, 15, 25)],
        "Err(Short { one: List { items: [121] }, other: List { items: [113] } })",
    ),
    (
        &INVERTER,
        &[(b's', Layer::Metal1, 60, 54)],
        "Err(Stray { name: List { items: [115] } })",
    ),
    (&ODD, &[], "Err(OddDevice { x: 4, y: 2 })"),
];

#[test]
fn extracts_drawings(rt: HostRuntime) -> Result<(), Fail> {
    for (table, letters, want) in &DRAWINGS {
        assert!(rt; is_told(rt.alloc(), table, letters, want)?, "{want}");
    }
    Ok(())
}

// Two P devices, each in a well of its own with a tap beside it, and two N devices with a tap of the substrate each.
const TAPPED: [(Layer, Sides); 18] = [
    (Layer::Active, [0, 0, 30, 10]),
    (Layer::Poly, [10, -4, 14, 14]),
    (Layer::Well, [-12, -12, 70, 22]),
    (Layer::Active, [44, 0, 54, 10]),
    (Layer::NSelect, [40, -4, 58, 14]),
    (Layer::Active, [0, 100, 30, 110]),
    (Layer::Poly, [10, 96, 14, 114]),
    (Layer::Well, [-12, 88, 70, 122]),
    (Layer::Active, [44, 100, 54, 110]),
    (Layer::Active, [0, 200, 30, 210]),
    (Layer::Poly, [10, 196, 14, 214]),
    (Layer::Active, [44, 200, 54, 210]),
    (Layer::PSelect, [40, 196, 58, 214]),
    (Layer::Active, [0, 300, 30, 310]),
    (Layer::Poly, [10, 296, 14, 314]),
    (Layer::Active, [44, 300, 54, 310]),
    (Layer::PSelect, [40, 296, 58, 314]),
    // the select of the second well's tap
    (Layer::NSelect, [40, 96, 58, 114]),
];

const NAMES: [Letter; 4] = [
    (b'a', Layer::Active, 49, 5),
    (b'b', Layer::Active, 49, 105),
    (b'l', Layer::Active, 49, 205),
    (b'l', Layer::Active, 49, 305),
];

// It has no clauses, so that those of `extract_bodies` stay out of the tests' proofs.
fn body_netlist(alloc: Global, shapes: &Shapes) -> Result<BodyNetlist, ExtractFault> {
    extract_bodies(alloc, shapes)
}

fn prints_bodies(alloc: Global, shapes: &Shapes, want: &str) -> Result<bool, AllocError> {
    match body_netlist(alloc, shapes) {
        Ok(netlist) => prints(alloc, &netlist.bodies, want),
        Err(fault) => prints(alloc, &fault, want),
    }
}

// Whether this is printed of the bodies of such a drawing, with this label on the last tap.
fn has_bodies(
    alloc: Global,
    table: &[(Layer, Sides)],
    letters: &[Letter],
    want: &str,
) -> Result<bool, Fail> {
    let shapes = drawing(alloc, table, letters)?;
    let is = prints_bodies(alloc, &shapes, want);
    drop(shapes);
    Ok(is?)
}

// The same labels, except the last one.
const OTHER: [Letter; 4] = [
    (b'a', Layer::Active, 49, 5),
    (b'b', Layer::Active, 49, 105),
    (b'l', Layer::Active, 49, 205),
    (b'o', Layer::Active, 49, 305),
];

// The body of a P device is the net of its well's tap, that of an N device the one net of the substrate's taps, whose
// labels must not differ. Without N select over it the second well's active is no tap, so its device has no body.
#[test]
fn bodies_of_wells_and_substrate(rt: HostRuntime) -> Result<(), Fail> {
    let alloc = rt.alloc();
    let all = "List { items: [Some(3), Some(7), Some(11), Some(11)] }";
    assert!(rt; has_bodies(alloc, &TAPPED, &NAMES, all)?);
    let one = "List { items: [Some(3), None, Some(11), Some(11)] }";
    assert!(rt; has_bodies(alloc, &TAPPED[..17], &NAMES, one)?);
    let short = "Short { one: List { items: [108] }, other: List { items: [111] } }";
    assert!(rt; has_bodies(alloc, &TAPPED, &OTHER, short)?);
    Ok(())
}
