ghost use Rattle.std.specs.Prelude.{◌≡◌, ◌≤◌, IfOk, None, length};
ghost use Rattle.cell_report.specs.Cycles.{nets_text};
ghost use Rattle.cell_report.specs.Netlists.{netlist_text};
ghost use Rattle.cell_report.specs.Rows.{plan_text};
ghost use Rattle.cell_report.specs.Violations.{violation_text};

use crate::netlist::put_netlist;
use crate::ring::put_cycle;
use crate::row::put_plan;
use crate::violations::put_violations;
use cell_num::{Bytes, Name, Names, NoMemory};
use channel_route::CycleList;
use net_extract::Netlist;
use row_model::Arrangement;
use scmos_rules::Violations;
use std::alloc::Global;

/// The cell's name, the columns and gaps of its row of at most 64 columns, its width, and a line for each column, as
/// [`put_plan`](crate::put_plan) adds them.
pub fn plan_text(
    alloc: Global,
    name: &Name,
    nets: &Names,
    row: &Arrangement,
) -> Result<Vec<u8>, NoMemory>
    requires { length row.now ≤ 64 }
    ensures { IfOk result (λ text. text.items ≡ plan_text name.now nets.now row.now) }
{
    let mut out = Bytes::new(alloc);
    put_plan(&mut out, name, nets, row)?;
    Ok(out.into_vec())
}

/// A line for each entry of a cycle of nets: the net, the one that it is above, and the line at which they meet.
/// The last is above the first.
pub fn cycle_text(alloc: Global, nets: &Names, cycle: &CycleList) -> Result<Vec<u8>, NoMemory>
    ensures { IfOk result (λ text. text.items ≡ nets_text nets.now cycle.now) }
{
    let mut out = Bytes::new(alloc);
    put_cycle(&mut out, nets, cycle.as_slice())?;
    Ok(out.into_vec())
}

/// A line for each broken rule, in the order of the list: its number and the first cell that fails it, in grid units.
pub fn violation_text(alloc: Global, found: &Violations) -> Result<Vec<u8>, NoMemory>
    ensures { IfOk result (λ text. text.items ≡ violation_text found.now) }
{
    let mut out = Bytes::new(alloc);
    put_violations(&mut out, found)?;
    Ok(out.into_vec())
}

/// The cell's name, the numbers of nets and of devices, a line for each net and one for each device, without bodies, as
/// [`put_netlist`](crate::put_netlist) adds them.
pub fn netlist_text(alloc: Global, name: &Name, netlist: &Netlist) -> Result<Vec<u8>, NoMemory>
    ensures { IfOk result (λ text. text.items ≡ netlist_text name.now netlist.now None) }
{
    let mut out = Bytes::new(alloc);
    put_netlist(&mut out, name, netlist, &None)?;
    Ok(out.into_vec())
}
