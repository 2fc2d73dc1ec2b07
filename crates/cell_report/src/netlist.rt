ghost use Rattle.std.specs.Prelude.{◌≡◌, ◌++◌, OnOk, slice_get};
ghost use Rattle.cell_report.specs.Netlists.{device_row, nets_text, body_name, body_text, device_line, net_lines};
ghost use Rattle.cell_report.specs.Netlists.{device_lines, netlist_text};

use crate::names::put_net;
use cell_num::{Bytes, Name, Names, NoMemory, Row, put_count, put_number, put_text};
use net_extract::{BodyList, Drawn, Netlist};

fn put_device_row(out: &mut Bytes, row: Row) -> Result<(), NoMemory>
    ensures { OnOk result (out.new ≡ out.old ++ device_row row) }
{
    match row {
        Row::P => out.extend(b"p"),
        Row::N => out.extend(b"n"),
    }
}

// The nets of a device.
fn put_nets(out: &mut Bytes, nets: &Names, device: &Drawn) -> Result<(), NoMemory>
    ensures { OnOk result (out.new ≡ out.old ++ nets_text nets.now device.now) }
{
    out.extend(b" gate ")?;
    put_net(out, nets, device.gate)?;
    out.extend(b" ends ")?;
    put_net(out, nets, device.lo)?;
    out.extend(b" ")?;
    put_net(out, nets, device.hi)
}

// The net of a device's body, where there is one.
fn put_body(out: &mut Bytes, nets: &Names, bodies: &BodyList, at: usize) -> Result<(), NoMemory>
    ensures { OnOk result (out.new ≡ out.old ++ body_name nets.now (slice_get bodies.now at)) }
{
    match bodies.get(at) {
        Some(Some(net)) => put_net(out, nets, *net),
        Some(None) | None => out.extend(b"-"),
    }
}

// The body of the device with that number, where bodies are reported.
fn put_body_of(
    out: &mut Bytes,
    nets: &Names,
    bodies: &Option<BodyList>,
    at: usize,
) -> Result<(), NoMemory>
    ensures { OnOk result (out.new ≡ out.old ++ body_text nets.now bodies.now at) }
{
    let Some(bodies) = bodies else {
        return Ok(());
    };
    out.extend(b" body ")?;
    put_body(out, nets, bodies, at)
}

fn put_device(
    out: &mut Bytes,
    nets: &Names,
    bodies: &Option<BodyList>,
    at: usize,
    device: &Drawn,
) -> Result<(), NoMemory>
    ensures { OnOk result (out.new ≡ out.old ++ device_line nets.now bodies.now (at, device.now)) }
{
    out.extend(b"device ")?;
    put_number(out, at as u64)?;
    out.extend(b" ")?;
    put_device_row(out, device.row)?;
    put_nets(out, nets, device)?;
    out.extend(b" width ")?;
    put_number(out, u64::from(device.width))?;
    out.extend(b" length ")?;
    put_number(out, u64::from(device.length))?;
    put_body_of(out, nets, bodies, at)?;
    out.extend(b"\n")
}

fn put_net_lines(out: &mut Bytes, nets: &Names) -> Result<(), NoMemory>
    ensures { OnOk result (out.new ≡ out.old ++ net_lines nets.now) }
{
    'nets: for (at, name) in nets.as_slice().iter().enumerate() {
        out.extend(b"net ")?;
        put_number(out, at as u64)?;
        put_text(out, b" ", name.as_slice())?;
    }
    Ok(())
}

fn put_device_lines(
    out: &mut Bytes,
    netlist: &Netlist,
    bodies: &Option<BodyList>,
) -> Result<(), NoMemory>
    ensures { OnOk result (out.new ≡ out.old ++ device_lines netlist.now bodies.now) }
{
    'devices: for (at, device) in netlist.devices.as_slice().iter().enumerate() {
        put_device(out, &netlist.names, bodies, at, device)?;
    }
    Ok(())
}

/// Adds the cell's name, the numbers of nets and of devices, a line for each net with its number and name, and a line
/// for each device: its row, the nets at its gate and its two ends, its width and length in grid units, and, where
/// bodies are reported, the net of its body.
pub fn put_netlist(
    out: &mut Bytes,
    name: &Name,
    netlist: &Netlist,
    bodies: &Option<BodyList>,
) -> Result<(), NoMemory>
    ensures { OnOk result (out.new ≡ out.old ++ netlist_text name.now netlist.now bodies.now) }
{
    put_text(out, b"cell ", name.as_slice())?;
    put_count(out, b"nets ", netlist.names.len() as u64)?;
    put_count(out, b"devices ", netlist.devices.len() as u64)?;
    put_net_lines(out, &netlist.names)?;
    put_device_lines(out, netlist, bodies)
}
