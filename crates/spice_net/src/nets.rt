ghost use Rattle.std.specs.Prelude.{◌≡◌, ◌≤◌, [], ◌∷◌, ◌++◌, length, replicate, All, IfOk, OnOk};
ghost use Rattle.indexmap.specs.IndexSet.{index_set_len};
ghost use Rattle.spice_net.specs.Nets.{distinct, named_nets, nets_of, number_of};
ghost use Rattle.spice_net.specs.Nets.{net_of, device_of, with_copies, devices_of};
ghost use Rattle.spice_net.specs.Numbers.{most_counted};
ghost use Rattle.spice_net.specs.Reader.{names_of, with_name, with_names};

use crate::subckt::{Device, DeviceList};
use crate::transistor::Transistor;
use cell_num::{MOST_NETS, Name, Names, NetNo, NoMemory, copy};
use indexmap::IndexSet;
use std::alloc::Global;

/// Adds a name, unless it is there.
pub fn add<'a>(nets: &mut IndexSet<&'a [u8]>, name: &'a [u8]) -> Result<(), NoMemory>
    ensures { OnOk result (names_of nets.new.keys ≡ with_name (names_of nets.old.keys) name.now) }
{
    match nets.insert_full(name) {
        Ok(_) => Ok(()),
        Err(_) => Err(NoMemory),
    }
}

/// The names without repeats.
#[tactic(auto, using(crate::proofs::NetFacts::starts_distinct, crate::proofs::NetFacts::one_name_more))]
pub fn distinct_names<'a>(alloc: Global, names: &'a [Name]) -> Result<IndexSet<&'a [u8]>, NoMemory>
    ensures { IfOk result (λ nets. names_of nets.keys ≡ distinct names.now) }
{
    let mut nets = IndexSet::new(alloc);
    for name in names {
        add(&mut nets, name.as_slice())?;
    }
    Ok(nets)
}

// adds the nets that a transistor names
fn add_nets<'a>(nets: &mut IndexSet<&'a [u8]>, transistor: &'a Transistor) -> Result<(), NoMemory>
    ensures { OnOk result (names_of nets.new.keys ≡ with_names (names_of nets.old.keys) (named_nets
        (transistor.now ∷ []))) }
{
    add(nets, transistor.drain.as_slice())?;
    add(nets, transistor.gate.as_slice())?;
    add(nets, transistor.source.as_slice())?;
    Ok(())
}

/// The names, and after them the nets that transistors name.
#[tactic(auto, using(crate::proofs::NetFacts::more_names))]
pub fn with_nets<'a>(
    names: IndexSet<&'a [u8]>,
    transistors: &'a [Transistor],
) -> Result<IndexSet<&'a [u8]>, NoMemory>
    ensures { IfOk result (λ nets. names_of nets.keys ≡ with_names (names_of names.entry.keys)
        (named_nets transistors.now)) }
{
    let mut nets = names;
    for transistor in transistors {
        add_nets(&mut nets, transistor)?;
    }
    Ok(nets)
}

/// The nets of a subcircuit: its pins, and then the nets that its transistors name.
#[tactic(auto, using(crate::proofs::NetFacts::nets_behind))]
pub fn net_set<'a>(
    pins: IndexSet<&'a [u8]>,
    transistors: &'a [Transistor],
) -> Result<IndexSet<&'a [u8]>, NoMemory>
    requires { distinct (names_of pins.keys) ≡ names_of pins.keys }
    ensures { IfOk result (λ nets. names_of nets.keys ≡ nets_of (names_of pins.entry.keys) transistors.now) }
{
    let nets = with_nets(pins, transistors)?;
    Ok(nets)
}

/// How many names a set has.
pub fn count(names: &IndexSet<&[u8]>) -> usize
    ensures names { result ≡ length (names_of names.now.keys) }
    ensures set { result ≡ index_set_len names.now }
{
    names.len()
}

/// Copies of the names, by their numbers.
pub fn copies(alloc: Global, nets: &IndexSet<&[u8]>) -> Result<Names, NoMemory>
    ensures { IfOk result (λ names. names ≡ names_of nets.now.keys) }
{
    let mut names = Names::new(alloc);
    for name in nets.as_slice() {
        names.push(copy(alloc, name)?)?;
    }
    Ok(names)
}

fn number(nets: &IndexSet<&[u8]>, name: &[u8]) -> u32
    requires { index_set_len nets.now ≤ MOST_NETS }
    ensures { result ≡ number_of (names_of nets.now.keys) name.now }
{
    match nets.get_index_of(name) {
        Some(at) => at as u32,
        None => nets.len() as u32,
    }
}

/// The number of a net of a set.
pub fn net(nets: &IndexSet<&[u8]>, name: &[u8]) -> NetNo
    requires { index_set_len nets.now ≤ MOST_NETS }
    ensures { result ≡ net_of (names_of nets.now.keys) name.now }
{
    NetNo(number(nets, name))
}

fn device(nets: &IndexSet<&[u8]>, transistor: &Transistor) -> Device
    requires { index_set_len nets.now ≤ MOST_NETS }
    ensures { result ≡ device_of (names_of nets.now.keys) transistor.now }
{
    Device {
        row: transistor.row,
        drain: net(nets, transistor.drain.as_slice()),
        gate: net(nets, transistor.gate.as_slice()),
        source: net(nets, transistor.source.as_slice()),
        width: transistor.width,
        fingers: transistor.fingers,
    }
}

fn add_copies(out: &mut DeviceList, count: u32, device: Device) -> Result<(), NoMemory>
    ensures { OnOk result (out.new ≡ out.old ++ replicate count device) }
{
    for _ in 0..count {
        out.push(device)?;
    }
    Ok(())
}

/// How many transistors there are with all copies.
#[tactic(auto, using(crate::proofs::Copies::one_more_counted))]
pub fn count_copies(transistors: &[Transistor]) -> usize
    requires { All (λ t. t.copies ≤ most_counted) transistors.now }
    ensures { result ≡ length (with_copies transistors.now) }
{
    let mut count = 0;
    for transistor in transistors {
        count += transistor.copies as usize;
    }
    count
}

/// The transistors with all copies, their nets by their numbers in a set.
#[tactic(auto, using(crate::proofs::Copies::one_more_device))]
pub fn devices(
    alloc: Global,
    nets: &IndexSet<&[u8]>,
    transistors: &[Transistor],
) -> Result<DeviceList, NoMemory>
    requires { index_set_len nets.now ≤ MOST_NETS }
    ensures { IfOk result (λ ds. ds ≡ devices_of (names_of nets.now.keys) transistors.now) }
{
    let mut found = DeviceList::new(alloc);
    for transistor in transistors {
        add_copies(&mut found, transistor.copies, device(nets, transistor))?;
    }
    Ok(found)
}
