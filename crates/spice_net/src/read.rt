ghost use Rattle.std.specs.Prelude.{◌≡◌, ◌≢◌, ◌≤◌, length, Ok, Err, All, IfOk, IfErr, OnOk, List, Result};
ghost use Rattle.cell_num.specs.Pins.{ArePins};
ghost use Rattle.spice_net.specs.declared.fault.SpiceFault.{SpiceFault as FaultOf};
ghost use Rattle.spice_net.specs.declared.fault.SpiceFault.TheVariants as fault;
ghost use Rattle.spice_net.specs.Chosen.{without_comments, lines_in};
ghost use Rattle.spice_net.specs.Nets.{distinct};
ghost use Rattle.spice_net.specs.Reader.{names_of, with_shown, in_front};
ghost use Rattle.spice_net.specs.Numbers.{most_counted};
ghost use Rattle.spice_net.specs.Transistors.{Transistor as TransistorOf, transistors_of};
ghost use Rattle.spice_net.specs.Subcircuit.{subckt_of, subckt_in, subcircuit};
ghost use Rattle.spice_net.specs.Subckts.{AreNames, IsSubckt};

use crate::chosen::{choose, first_is};
use crate::fault::SpiceFault;
use crate::numbering::number_all;
use crate::pins::{check_pins, has_rails, read_pins, with_rails};
use crate::subckt::{MOST_DEVICES, MOST_PINS, Subckt};
use crate::transistor::{Transistor, TransistorList, is_transistor, read_transistor};
use cell_num::{MOST_BYTES, Name};
use indexmap::IndexSet;
use spice_text::{Line, Lines, TextFault, split_lines};
use std::alloc::Global;
use tech_file::Tech;

fn take_line(
    alloc: Global,
    tech: &Tech,
    line: &Line,
    found: &mut TransistorList,
) -> Result<(), SpiceFault>
    ensures taken { OnOk result ((rest : Result (List TransistorOf) FaultOf) →
        in_front found.new rest ≡ in_front found.old (with_shown tech.now line.now rest)) }
    ensures fault { IfErr result (λ f. f ≢ fault.NoMemory → (rest : Result (List TransistorOf) FaultOf) →
        with_shown tech.now line.now rest ≡ Err f) }
{
    if line.info {
        return Ok(());
    }
    let words = line.words.as_slice();
    if is_transistor(words) {
        let transistor = read_transistor(alloc, tech, line.number, words)?;
        found.push(transistor)?;
        return Ok(());
    }
    if first_is(words, b".global") {
        Ok(())
    } else {
        Err(SpiceFault::Element { line: line.number })
    }
}

fn read_transistors(
    alloc: Global,
    tech: &Tech,
    lines: &[Line],
) -> Result<TransistorList, SpiceFault>
    ensures all { IfOk result (λ ts. transistors_of tech.now (without_comments lines.now) ≡ Ok ts) }
    ensures fault { IfErr result (λ f. f ≢ fault.NoMemory →
        transistors_of tech.now (without_comments lines.now) ≡ Err f) }
{
    let mut found = TransistorList::new(alloc);
    for line in lines {
        take_line(alloc, tech, line, &mut found)?;
    }
    Ok(found)
}

// looks at the whole subcircuit, and numbers its nets
fn join<'a>(
    alloc: Global,
    name: &Name,
    tech: &'a Tech,
    lines: &[Line],
    pins: IndexSet<&'a [u8]>,
    transistors: &'a [Transistor],
) -> Result<Subckt, SpiceFault>
    requires once { distinct (names_of pins.keys) ≡ names_of pins.keys }
    requires few { All (λ t. t.copies ≤ most_counted) transistors.now }
    ensures cell { IfOk result (λ cell. subckt_of name.now tech.now lines.now
        (names_of pins.entry.keys) transistors.now ≡ Ok cell) }
    ensures fault { IfErr result (λ f. f ≢ fault.NoMemory →
        subckt_of name.now tech.now lines.now (names_of pins.entry.keys) transistors.now ≡ Err f) }
{
    if !has_rails(tech, &pins) {
        return Err(SpiceFault::NoRail);
    }
    check_pins(alloc, tech, &pins, transistors)?;
    if transistors.is_empty() {
        return Err(SpiceFault::Empty);
    }
    let cell = number_all(alloc, name, tech, lines, pins, transistors)?;
    Ok(cell)
}

#[tactic(auto, using(crate::proofs::SoundLines::few_copies))]
fn read_lines(alloc: Global, name: &Name, tech: &Tech, lines: &[Line]) -> Result<Subckt, SpiceFault>
    ensures cell { IfOk result (λ cell. subckt_in name.now tech.now lines.now ≡ Ok cell) }
    ensures fault { IfErr result (λ f. f ≢ fault.NoMemory → subckt_in name.now tech.now lines.now ≡ Err f) }
{
    let block = choose(lines, name.as_slice())?;
    let pins = read_pins(alloc, block.head)?;
    let transistors = read_transistors(alloc, tech, block.lines)?;
    let pins = with_rails(pins, lines, tech)?;
    let cell = join(alloc, name, tech, block.lines, pins, transistors.as_slice())?;
    Ok(cell)
}

/// The logical lines of a SPICE file of at most a gibibyte, of which [`read_cell_in`] reads subcircuits.
#[tactic(auto, using(crate::proofs::Told::never_lines_in))]
pub fn split_file(alloc: Global, bytes: &[u8]) -> Result<Lines, SpiceFault>
    requires { length bytes.now ≤ MOST_BYTES }
    ensures lines { IfOk result (λ lines. lines_in bytes.now ≡ Ok lines) }
    ensures fault { IfErr result (λ f. f ≢ fault.NoMemory → lines_in bytes.now ≡ Err f) }
    ensures told { lines_in bytes.now ≢ Err fault.NoMemory }
{
    match split_lines(alloc, bytes) {
        Ok(lines) => Ok(lines),
        Err(TextFault::NotAscii { line }) => Err(SpiceFault::NotAscii { line }),
        Err(TextFault::NoMemory) => Err(SpiceFault::NoMemory),
    }
}

/// Reads the subcircuit of a name, given in lower case, from the lines of a SPICE file.
#[tactic(auto, using(crate::proofs::CellRules::cell_rules))]
pub fn read_cell_in(
    alloc: Global,
    lines: &[Line],
    name: &Name,
    tech: &Tech,
) -> Result<Subckt, SpiceFault>
    // The subcircuit of the definition, or its first fault; memory may run out.
    ensures cell { IfOk result (λ cell. subckt_in name.now tech.now lines.now ≡ Ok cell) }
    ensures fault { IfErr result (λ f. f ≢ fault.NoMemory → subckt_in name.now tech.now lines.now ≡ Err f) }

    // Memory alone makes it NoMemory: the definition never answers so.
    ensures told { subckt_in name.now tech.now lines.now ≢ Err fault.NoMemory }

    // What holds of every one.
    ensures sound { IfOk result (λ cell. IsSubckt cell) }
    ensures some { IfOk result (λ cell. 1 ≤ length cell.devices) }
    ensures pins { IfOk result (λ cell. ArePins (length cell.nets) cell.pins) }
    ensures few_pins { IfOk result (λ cell. cell.pins.pins ≤ MOST_PINS) }
    ensures few_devices { IfOk result (λ cell. length cell.devices ≤ MOST_DEVICES) }
    ensures directions { IfOk result (λ cell. length cell.directions ≡ cell.pins.pins) }
    ensures named { IfOk result (λ cell. AreNames cell.nets) }
    ensures name { IfOk result (λ cell. cell.name ≡ name.now) }
{
    tech.show_limits();
    let cell = read_lines(alloc, name, tech, lines)?;
    Ok(cell)
}

/// Reads the subcircuit of a name, given in lower case, from a SPICE file of at most a gibibyte.
#[tactic(auto, using(crate::proofs::Told::never_subcircuit))]
pub fn read_cell(
    alloc: Global,
    bytes: &[u8],
    name: &Name,
    tech: &Tech,
) -> Result<Subckt, SpiceFault>
    requires { length bytes.now ≤ MOST_BYTES }
    // The subcircuit of the definition, or its first fault; memory may run out.
    ensures cell { IfOk result (λ cell. subcircuit bytes.now name.now tech.now ≡ Ok cell) }
    ensures fault { IfErr result (λ f. f ≢ fault.NoMemory → subcircuit bytes.now name.now tech.now ≡ Err f) }

    // Memory alone makes it NoMemory: the definition never answers so.
    ensures told { subcircuit bytes.now name.now tech.now ≢ Err fault.NoMemory }

    // What holds of every one.
    ensures sound { IfOk result (λ cell. IsSubckt cell) }
    ensures some { IfOk result (λ cell. 1 ≤ length cell.devices) }
    ensures pins { IfOk result (λ cell. ArePins (length cell.nets) cell.pins) }
    ensures few_pins { IfOk result (λ cell. cell.pins.pins ≤ MOST_PINS) }
    ensures few_devices { IfOk result (λ cell. length cell.devices ≤ MOST_DEVICES) }
    ensures directions { IfOk result (λ cell. length cell.directions ≡ cell.pins.pins) }
    ensures named { IfOk result (λ cell. AreNames cell.nets) }
    ensures name { IfOk result (λ cell. cell.name ≡ name.now) }
{
    let lines = split_file(alloc, bytes)?;
    let cell = read_cell_in(alloc, lines.as_slice(), name, tech)?;
    Ok(cell)
}
