ghost use Rattle.std.specs.Prelude.{◌≡◌, ◌||◌, bytes_eq, IfOk};
ghost use Rattle.std.specs.List.{list_any};
ghost use Rattle.spice_net.specs.Directions.{shown_of, direction_of, directions_of};
ghost use Rattle.spice_net.specs.Reader.{names_of};

use crate::pairs::told_of;
use crate::subckt::{Direction, DirectionList};
use crate::transistor::{Transistor, is_rail};
use cell_num::NoMemory;
use spice_text::Line;
use std::alloc::Global;
use tech_file::Tech;

fn is_gate(transistors: &[Transistor], net: &[u8]) -> bool
    ensures { result ≡ list_any (λ t. bytes_eq net.now t.gate) transistors.now }
{
    transistors.iter().any(|t| net == t.gate.as_slice())
}

fn is_end(transistors: &[Transistor], net: &[u8]) -> bool
    ensures { result ≡ list_any (λ t. bytes_eq net.now t.drain || bytes_eq net.now t.source) transistors.now }
{
    transistors.iter().any(|t| net == t.drain.as_slice() || net == t.source.as_slice())
}

// the direction of a pin that no pair names
fn shown_of(tech: &Tech, transistors: &[Transistor], pin: &[u8]) -> Direction
    ensures { result ≡ shown_of tech.now transistors.now pin.now }
{
    if !is_rail(tech, pin) && is_gate(transistors, pin) && !is_end(transistors, pin) {
        Direction::Input
    } else {
        Direction::Inout
    }
}

fn direction_of(tech: &Tech, lines: &[Line], transistors: &[Transistor], pin: &[u8]) -> Direction
    ensures { result ≡ direction_of tech.now lines.now transistors.now pin.now }
{
    match told_of(lines, pin) {
        Some(direction) => direction,
        None => shown_of(tech, transistors, pin),
    }
}

/// The directions of the pins, by the lines inside the subcircuit and its transistors.
pub fn directions_of(
    alloc: Global,
    tech: &Tech,
    lines: &[Line],
    pins: &[&[u8]],
    transistors: &[Transistor],
) -> Result<DirectionList, NoMemory>
    ensures { IfOk result (λ ds. ds ≡ directions_of tech.now lines.now (names_of pins.now) transistors.now) }
{
    let mut found = DirectionList::new(alloc);
    for pin in pins {
        found.push(direction_of(tech, lines, transistors, pin))?;
    }
    Ok(found)
}
