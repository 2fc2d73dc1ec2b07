ghost use Rattle.std.specs.Prelude.{◌≡◌, ◌<◌, [], ◌∷◌, ◌++◌, replicate, All, IfOk, OnOk};
ghost use Rattle.spice_net.specs.Subckts.{IsSubckt};
ghost use Rattle.finger_fold.specs.Folding.{finger_of, shared_out, fingers_in, all_fingers};

use crate::count::count_of;
use cell_num::{Finger, FingerList, Fingers, NoMemory, Row};
use spice_net::{Device, Subckt};
use std::alloc::Global;
use tech_file::Tech;

fn finger_of(device: &Device, width: u32) -> Finger
    ensures { result ≡ finger_of device.now width }
{
    Finger {
        row: device.row,
        gate: device.gate,
        lo: device.drain.min(device.source),
        hi: device.drain.max(device.source),
        width,
    }
}

fn add_copies(out: &mut FingerList, count: u32, finger: Finger) -> Result<(), NoMemory>
    ensures { OnOk result (out.new ≡ out.old ++ replicate count finger) }
{
    for _ in 0..count {
        out.push(finger)?;
    }
    Ok(())
}

// The units that are left over go to the first fingers, one to each.
fn share_out(out: &mut FingerList, device: &Device, count: u32) -> Result<(), NoMemory>
    requires { 0 < count }
    ensures { OnOk result (out.new ≡ out.old ++ shared_out device.now count) }
{
    let width = device.width / count;
    let wider = device.width % count;
    if wider > 0 {
        add_copies(out, wider, finger_of(device, width + 1))?;
    }
    add_copies(out, count - wider, finger_of(device, width))?;
    Ok(())
}

fn add_fingers(out: &mut FingerList, row: Row, tech: &Tech, device: &Device) -> Result<(), NoMemory>
    requires { 0 < device.now.width }
    ensures { OnOk result (out.new ≡ out.old ++ fingers_in row tech.now (device.now ∷ [])) }
{
    if device.row == row {
        return share_out(out, device, count_of(tech, device));
    }
    Ok(())
}

fn row_of(alloc: Global, row: Row, tech: &Tech, devices: &[Device]) -> Result<FingerList, NoMemory>
    requires { All (λ d. 0 < d.width) devices.now }
    ensures { IfOk result (λ out. out ≡ fingers_in row tech.now devices.now) }
{
    let mut out = FingerList::new(alloc);
    for device in devices {
        add_fingers(&mut out, row, tech, device)?;
    }
    Ok(out)
}

/// The fingers of both rows.
#[tactic(auto, using(crate::proofs::Counts::some_width))]
pub fn all_fingers(alloc: Global, cell: &Subckt, tech: &Tech) -> Result<Fingers, NoMemory>
    requires { IsSubckt cell.now }
    ensures { IfOk result (λ f. f ≡ all_fingers tech.now cell.now) }
{
    let devices = cell.devices.as_slice();
    let p = row_of(alloc, Row::P, tech, devices)?;
    let n = row_of(alloc, Row::N, tech, devices)?;
    Ok(Fingers {
        nets: cell.nets.len() as u32,
        p,
        n,
    })
}
