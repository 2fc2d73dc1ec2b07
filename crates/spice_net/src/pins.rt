ghost use Rattle.std.specs.Prelude.{◌≡◌, ◌≢◌, drop, find, option_map, IfOk, IfErr, OnOk, Ok, Err, ◌&&◌};
ghost use Rattle.spice_net.specs.declared.fault.SpiceFault.TheVariants as fault;
ghost use Rattle.spice_net.specs.Chosen.{has_name};
ghost use Rattle.spice_net.specs.Nets.{distinct};
ghost use Rattle.spice_net.specs.Reader.{names_of};
ghost use Rattle.spice_net.specs.Subcircuit.{pins_of, with_rail, with_rails, is_idle, idle_pin, none_idle};

use crate::chosen::is_global;
use crate::fault::SpiceFault;
use crate::fields::are_names;
use crate::nets::{add, distinct_names, with_nets};
use crate::transistor::{Transistor, is_rail};
use cell_num::{Name, NoMemory, copy};
use indexmap::IndexSet;
use spice_text::Line;
use std::alloc::Global;
use tech_file::Tech;

fn behind_two(words: &[Name]) -> &[Name]
    ensures { result.now ≡ drop 2 words.now }
{
    match words {
        [_, _, behind @ ..] => behind,
        _ => &[],
    }
}

/// The pins that the first line of a subcircuit lists.
#[tactic(auto, using(crate::proofs::PinFacts::pin_rules))]
pub fn read_pins<'a>(alloc: Global, head: &'a Line) -> Result<IndexSet<&'a [u8]>, SpiceFault>
    ensures pins { IfOk result (λ pins. pins_of head.now ≡ Ok (names_of pins.keys)) }
    ensures distinct { IfOk result (λ pins. distinct (names_of pins.keys) ≡ names_of pins.keys) }
    ensures fault { IfErr result (λ f. f ≢ fault.NoMemory → pins_of head.now ≡ Err f) }
{
    let names = behind_two(head.words.as_slice());
    if !are_names(names) {
        return Err(SpiceFault::Fields { line: head.number });
    }
    let pins = distinct_names(alloc, names)?;
    if pins.len() < names.len() {
        return Err(SpiceFault::Fields { line: head.number });
    }
    Ok(pins)
}

#[tactic(auto, using(crate::proofs::PinFacts::rail_there, crate::proofs::PinFacts::no_rail))]
fn add_rail<'a>(
    pins: &mut IndexSet<&'a [u8]>,
    lines: &[Line],
    rail: &'a [u8],
) -> Result<(), NoMemory>
    ensures { OnOk result (names_of pins.new.keys ≡ with_rail lines.now rail.now (names_of pins.old.keys)) }
{
    if is_global(lines, rail) {
        add(pins, rail)?;
    }
    Ok(())
}

/// The pins, and after them the rails that a line of the file makes global.
#[tactic(auto, using(crate::proofs::PinFacts::rails_distinct))]
pub fn with_rails<'a>(
    pins: IndexSet<&'a [u8]>,
    lines: &[Line],
    tech: &'a Tech,
) -> Result<IndexSet<&'a [u8]>, NoMemory>
    ensures pins { IfOk result (λ all. names_of all.keys ≡ with_rails tech.now lines.now (names_of pins.entry.keys)) }
    ensures distinct { IfOk result (λ all. distinct (names_of pins.entry.keys) ≡ names_of pins.entry.keys →
        distinct (names_of all.keys) ≡ names_of all.keys) }
{
    let mut all = pins;
    add_rail(&mut all, lines, tech.vdd.as_slice())?;
    add_rail(&mut all, lines, tech.gnd.as_slice())?;
    Ok(all)
}

#[tactic(auto, using(crate::proofs::NetFacts::any_names))]
fn holds(names: &IndexSet<&[u8]>, name: &[u8]) -> bool
    ensures { result ≡ has_name (names_of names.now.keys) name.now }
{
    names.contains(name)
}

/// Whether both rails are among the pins.
pub fn has_rails(tech: &Tech, pins: &IndexSet<&[u8]>) -> bool
    ensures { result ≡ (has_name (names_of pins.now.keys) tech.now.vdd && has_name
        (names_of pins.now.keys) tech.now.gnd) }
{
    holds(pins, tech.vdd.as_slice()) && holds(pins, tech.gnd.as_slice())
}

fn is_idle(tech: &Tech, named: &IndexSet<&[u8]>, pin: &[u8]) -> bool
    ensures { result ≡ is_idle tech.now (names_of named.now.keys) pin.now }
{
    !is_rail(tech, pin) && !holds(named, pin)
}

fn find_idle<'a>(tech: &Tech, named: &IndexSet<&[u8]>, pins: &[&'a [u8]]) -> Option<&'a [u8]>
    ensures { option_map (λ pin. pin.now) result ≡ find (is_idle tech.now (names_of named.now.keys))
        (names_of pins.now) }
{
    for pin in pins {
        if is_idle(tech, named, pin) {
            return Some(pin);
        }
    }
    None
}

/// Looks at the pins other than the rails: each is a transistor's drain, gate or source.
#[tactic(auto, using(crate::proofs::PinFacts::idle_among))]
pub fn check_pins(
    alloc: Global,
    tech: &Tech,
    pins: &IndexSet<&[u8]>,
    transistors: &[Transistor],
) -> Result<(), SpiceFault>
    ensures right { OnOk result (none_idle (idle_pin tech.now (names_of pins.now.keys) transistors.now) ≡ Ok tt) }
    ensures fault { IfErr result (λ f. f ≢ fault.NoMemory →
        none_idle (idle_pin tech.now (names_of pins.now.keys) transistors.now) ≡ Err f) }
{
    let named = with_nets(IndexSet::new(alloc), transistors)?;
    let idle = find_idle(tech, &named, pins.as_slice());
    drop(named);
    match idle {
        Some(pin) => Err(SpiceFault::IdlePin {
            name: copy(alloc, pin)?,
        }),
        None => Ok(()),
    }
}
