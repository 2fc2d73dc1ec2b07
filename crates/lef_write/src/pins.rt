// The pins of a macro.
ghost use Rattle.std.specs.Prelude.{◌≡◌, ◌<◌, ◌++◌, OnOk};
ghost use Rattle.lef_write.specs.Lef.{direction_text, use_text, name_of, direction_of, port_text, pin_text, pins_text};

use crate::Port;
use crate::ports::port_shapes;
use crate::shapes::put_rects;
use box_geom::Shape;
use cell_num::{Bytes, NetNo, NoMemory, Pins, put_text};
use spice_net::{Direction, Subckt};
use std::alloc::Global;

#[tactic(auto, unfolding(crate::specs::Lef::direction_text))]
fn direction_text(direction: Direction) -> &'static [u8]
    ensures { result.now ≡ direction_text direction }
{
    match direction {
        Direction::Input => b"    DIRECTION INPUT ;\n",
        Direction::Output => b"    DIRECTION OUTPUT ;\n",
        Direction::Inout => b"    DIRECTION INOUT ;\n",
    }
}

#[tactic(auto, unfolding(crate::specs::Lef::use_text))]
fn use_text(pins: &Pins, pin: NetNo) -> &'static [u8]
    ensures { result.now ≡ use_text pins.now pin }
{
    if pin == pins.vdd {
        b"    USE POWER ;\n"
    } else if pin == pins.gnd {
        b"    USE GROUND ;\n"
    } else {
        b"    USE SIGNAL ;\n"
    }
}

fn direction_of(cell: &Subckt, pin: u32) -> Direction
    ensures { result ≡ direction_of cell.now.directions pin }
{
    match cell.directions.get(pin as usize) {
        Some(direction) => *direction,
        None => Direction::Inout,
    }
}

fn name_of(cell: &Subckt, pin: u32) -> &[u8]
    ensures { result.now ≡ name_of cell.now.nets pin }
{
    match cell.nets.get(pin as usize) {
        Some(name) => name.as_slice(),
        None => &[],
    }
}

#[tactic(auto, unfolding(crate::specs::Lef::port_text))]
fn put_port(out: &mut Bytes, shapes: &[Shape], unit_nm: u32) -> Result<(), NoMemory>
    ensures { OnOk result (out.new ≡ out.old ++ port_text unit_nm shapes.now) }
{
    out.extend(b"    PORT\n      LAYER metal1 ;\n")?;
    put_rects(out, b"      ", shapes, unit_nm)?;
    out.extend(b"    END\n")
}

#[tactic(auto, unfolding(crate::specs::Lef::pin_text))]
fn put_pin(
    alloc: Global,
    out: &mut Bytes,
    cell: &Subckt,
    ports: &[Port],
    rects: &[Shape],
    unit_nm: u32,
    pin: u32,
) -> Result<(), NoMemory>
    ensures { OnOk result (out.new ≡ out.old ++ pin_text cell.now ports.now rects.now unit_nm pin) }
{
    let name = name_of(cell, pin);
    let shapes = port_shapes(alloc, ports, rects, NetNo(pin))?;
    put_text(out, b"  PIN ", name)?;
    out.extend(direction_text(direction_of(cell, pin)))?;
    out.extend(use_text(&cell.pins, NetNo(pin)))?;
    put_port(out, shapes.as_slice(), unit_nm)?;
    put_text(out, b"  END ", name)
}

/// Adds the pins of a cell, in order.
pub fn put_pins(
    alloc: Global,
    out: &mut Bytes,
    cell: &Subckt,
    ports: &[Port],
    rects: &[Shape],
    unit_nm: u32,
) -> Result<(), NoMemory>
    ensures { OnOk result (out.new ≡ out.old ++ pins_text cell.now ports.now rects.now unit_nm) }
{
    for pin in 0..cell.pins.pins {
        put_pin(alloc, out, cell, ports, rects, unit_nm, pin)?;
    }
    Ok(())
}
