// The nets of a subcircuit by their numbers.
ghost use Rattle.std.specs.Prelude.{◌≡◌, ◌≢◌, ◌≤◌, length, Ok, Err, All, IfOk, IfErr, OnOk, List, ℕ};
ghost use Rattle.indexmap.specs.IndexSet.{index_set_len};
ghost use Rattle.spice_text.specs.declared.logical.Line.{Line as LineOf};
ghost use Rattle.spice_net.specs.declared.fault.SpiceFault.TheVariants as fault;
ghost use Rattle.spice_net.specs.declared.fault.What.TheVariants as what;
ghost use Rattle.spice_net.specs.Directions.{directions_of as directions_in};
ghost use Rattle.spice_net.specs.Nets.{distinct, nets_of};
ghost use Rattle.spice_net.specs.Reader.{names_of};
ghost use Rattle.spice_net.specs.Numbers.{most_counted};
ghost use Rattle.spice_net.specs.Subcircuit.{at_most, few_enough, most_nets, numbered, subckt_with};

use crate::directions::directions_of;
use crate::fault::{SpiceFault, What};
use crate::nets::{copies, count, count_copies, devices, net, net_set};
use crate::subckt::{DirectionList, MOST_DEVICES, MOST_PINS, Subckt};
use crate::transistor::Transistor;
use cell_num::{MOST_NETS, Name, NoMemory, Pins, copy};
use indexmap::IndexSet;
use spice_text::Line;
use std::alloc::Global;
use tech_file::Tech;

fn limit(most: usize, what: What, count: usize) -> Result<(), SpiceFault>
    ensures { result ≡ at_most most what count }
{
    if count <= most {
        Ok(())
    } else {
        Err(SpiceFault::TooMany {
            what,
            count: count as u64,
        })
    }
}

fn number_nets(
    alloc: Global,
    name: &Name,
    tech: &Tech,
    directions: DirectionList,
    nets: &IndexSet<&[u8]>,
    transistors: &[Transistor],
) -> Result<Subckt, NoMemory>
    requires few { index_set_len nets.now ≤ MOST_NETS }
    requires pins { length directions ≤ MOST_PINS }
    ensures { IfOk result (λ cell. (lines : List LineOf) → (names : List (List ℕ)) →
        directions ≡ directions_in tech.now lines names transistors.now →
        names_of nets.now.keys ≡ nets_of names transistors.now →
        cell ≡ subckt_with name.now tech.now lines names transistors.now) }
{
    let pins = Pins {
        pins: directions.len() as u32,
        vdd: net(nets, tech.vdd.as_slice()),
        gnd: net(nets, tech.gnd.as_slice()),
    };
    Ok(Subckt {
        name: copy(alloc, name.as_slice())?,
        pins,
        nets: copies(alloc, nets)?,
        devices: devices(alloc, nets, transistors)?,
        directions,
    })
}

// the directions of the pins, where these and the devices are not too many
fn directions_within(
    alloc: Global,
    tech: &Tech,
    lines: &[Line],
    pins: &IndexSet<&[u8]>,
    transistors: &[Transistor],
) -> Result<DirectionList, SpiceFault>
    requires few { All (λ t. t.copies ≤ most_counted) transistors.now }
    ensures directions { IfOk result (λ ds. ds ≡ directions_in tech.now lines.now (names_of pins.now.keys)
        transistors.now) }
    ensures pins { IfOk result (λ ds. length ds ≤ MOST_PINS) }
    ensures nets { OnOk result (few_enough (names_of pins.now.keys) transistors.now
        ≡ at_most most_nets what.Nets (length (nets_of (names_of pins.now.keys) transistors.now))) }
    ensures fault { IfErr result (λ f. f ≢ fault.NoMemory →
        few_enough (names_of pins.now.keys) transistors.now ≡ Err f) }
{
    limit(MOST_PINS, What::Pins, count(pins))?;
    limit(MOST_DEVICES, What::Devices, count_copies(transistors))?;
    let directions = directions_of(alloc, tech, lines, pins.as_slice(), transistors)?;
    Ok(directions)
}

// numbers the nets, where they are not too many
fn number_set(
    alloc: Global,
    name: &Name,
    tech: &Tech,
    directions: DirectionList,
    nets: &IndexSet<&[u8]>,
    transistors: &[Transistor],
) -> Result<Subckt, SpiceFault>
    requires pins { length directions ≤ MOST_PINS }
    ensures cell { IfOk result (λ cell. (lines : List LineOf) → (names : List (List ℕ)) →
        directions ≡ directions_in tech.now lines names transistors.now →
        names_of nets.now.keys ≡ nets_of names transistors.now →
        cell ≡ subckt_with name.now tech.now lines names transistors.now) }
    ensures few { OnOk result (at_most most_nets what.Nets (length (names_of nets.now.keys)) ≡ Ok tt) }
    ensures fault { IfErr result (λ f. f ≢ fault.NoMemory →
        at_most most_nets what.Nets (length (names_of nets.now.keys)) ≡ Err f) }
{
    limit(MOST_NETS as usize, What::Nets, count(nets))?;
    let cell = number_nets(alloc, name, tech, directions, nets, transistors)?;
    Ok(cell)
}

/// Numbers the nets of the pins and of the transistors, where they are not too many. Sets of names are dropped by
/// calls, whose proofs are short.
pub fn number_all<'a>(
    alloc: Global,
    name: &Name,
    tech: &'a Tech,
    lines: &[Line],
    pins: IndexSet<&'a [u8]>,
    transistors: &'a [Transistor],
) -> Result<Subckt, SpiceFault>
    requires once { distinct (names_of pins.keys) ≡ names_of pins.keys }
    requires few { All (λ t. t.copies ≤ most_counted) transistors.now }
    ensures cell { IfOk result (λ cell. numbered name.now tech.now lines.now (names_of pins.entry.keys) transistors.now
        ≡ Ok cell) }
    ensures fault { IfErr result (λ f. f ≢ fault.NoMemory →
        numbered name.now tech.now lines.now (names_of pins.entry.keys) transistors.now ≡ Err f) }
{
    let directions = match directions_within(alloc, tech, lines, &pins, transistors) {
        Ok(directions) => directions,
        Err(fault) => {
            drop(pins);
            return Err(fault);
        }
    };
    let nets = net_set(pins, transistors)?;
    let cell = number_set(alloc, name, tech, directions, &nets, transistors);
    drop(nets);
    cell
}
