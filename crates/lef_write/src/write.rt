ghost use Rattle.std.specs.Prelude.{◌≡◌, ◌≤◌, ◌<◌, ◌++◌, length, OnOk, IfOk, All};
ghost use Rattle.lef_write.specs.Lef.{head_text, size_text, macro_text, library_text, cell_text};
ghost use Rattle.lef_write.specs.Ports.{IsPort};

use crate::PortList;
use crate::number::put_microns;
use crate::obstructions::put_obstructions;
use crate::pins::put_pins;
use crate::ports::{obstructions_on, ports_of};
use box_geom::Layer;
use cell_draw::{Drawing, MOST_SHAPES};
use cell_num::{Bytes, NoMemory, put_text};
use channel_route::Routing;
use spice_net::Subckt;
use std::alloc::Global;

#[tactic(auto, unfolding(crate::specs::Lef::head_text))]
fn put_head(out: &mut Bytes) -> Result<(), NoMemory>
    ensures { OnOk result (out.new ≡ out.old ++ head_text) }
{
    out.extend(
        b"VERSION 5.8 ;\nBUSBITCHARS \"[]\" ;\nDIVIDERCHAR \"/\" ;\nUNITS\n  DATABASE MICRONS 1000 ;\nEND UNITS\n",
    )
}

#[tactic(auto, unfolding(crate::specs::Lef::size_text))]
fn put_size(out: &mut Bytes, width: u32, height: u32, unit_nm: u32) -> Result<(), NoMemory>
    ensures { OnOk result (out.new ≡ out.old ++ size_text width height unit_nm) }
{
    let unit = u64::from(unit_nm);
    out.extend(b"  SIZE ")?;
    put_microns(out, u64::from(width) * unit)?;
    out.extend(b" BY ")?;
    put_microns(out, u64::from(height) * unit)?;
    out.extend(b" ;\n")
}

#[tactic(auto, unfolding(crate::specs::Lef::macro_text))]
fn put_macro(
    out: &mut Bytes,
    name: &[u8],
    width: u32,
    height: u32,
    unit_nm: u32,
) -> Result<(), NoMemory>
    ensures { OnOk result (out.new ≡ out.old ++ macro_text name.now width height unit_nm) }
{
    put_text(out, b"MACRO ", name)?;
    out.extend(b"  CLASS CORE ;\n  ORIGIN 0.000 0.000 ;\n")?;
    put_size(out, width, height, unit_nm)?;
    out.extend(b"  SYMMETRY X Y ;\n")
}

/// The library of one macro, the cell with these ports as its pins' rectangles. All other metal of the
/// drawing obstructs. A grid unit has `unit_nm` nanometres.
pub fn lef_ports(
    alloc: Global,
    cell: &Subckt,
    ports: &PortList,
    drawing: &Drawing,
    unit_nm: u32,
) -> Result<Vec<u8>, NoMemory>
    requires pins { cell.now.pins.pins ≤ length cell.now.nets }
    requires directions { length cell.now.directions ≡ cell.now.pins.pins }
    requires ports { All (IsPort drawing.now.shapes.rects) ports.now }
    ensures { IfOk result (λ bytes. bytes.items ≡ library_text cell.now ports.now drawing.now unit_nm) }
{
    let ports = ports.as_slice();
    let rects = drawing.shapes.rects.as_slice();
    let name = cell.name.as_slice();
    let metal1 = obstructions_on(alloc, Layer::Metal1, ports, rects)?;
    let metal2 = obstructions_on(alloc, Layer::Metal2, ports, rects)?;
    let mut out = Bytes::new(alloc);
    put_head(&mut out)?;
    put_macro(&mut out, name, drawing.width, drawing.height, unit_nm)?;
    put_pins(alloc, &mut out, cell, ports, rects, unit_nm)?;
    put_obstructions(&mut out, metal1.as_slice(), metal2.as_slice(), unit_nm)?;
    put_text(&mut out, b"END ", name)?;
    out.extend(b"END LIBRARY\n")?;
    Ok(out.into_vec())
}

/// The LEF library of a cell, by the LEF/DEF 5.8 Language Reference: one macro, each pin's port is its
/// rail or all trunks of its net, and all other metal obstructs. The routing and the drawing are the cell's own. A
/// grid unit has `unit_nm` nanometres.
#[tactic(auto, using(crate::proofs::Placed::ports_are))]
pub fn lef_text(
    alloc: Global,
    cell: &Subckt,
    routing: &Routing,
    drawing: &Drawing,
    unit_nm: u32,
) -> Result<Vec<u8>, NoMemory>
    requires pins { cell.now.pins.pins ≤ length cell.now.nets }
    requires directions { length cell.now.directions ≡ cell.now.pins.pins }
    requires few { length drawing.now.shapes.rects < MOST_SHAPES }
    ensures { IfOk result (λ bytes. bytes.items ≡ cell_text cell.now routing.now drawing.now unit_nm) }
{
    let rects = drawing.shapes.rects.as_slice();
    let ports = ports_of(alloc, &cell.pins, routing.trunks.as_slice(), rects)?;
    lef_ports(alloc, cell, &ports, drawing, unit_nm)
}
