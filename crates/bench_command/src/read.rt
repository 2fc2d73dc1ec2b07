ghost use Rattle.std.specs.Prelude.{◌≤◌, IfOk, length};
ghost use Rattle.bench_command.specs.Bench.{AreInputsOf, HoldsCell};

use crate::cell_name;
use cell_inputs::Inputs;
use cell_num::{MOST_BYTES, NoMemory};
use finger_fold::{FoldFault, fold};
use spice_net::{SpiceFault, read_cell};
use std::alloc::Global;
use tech_file::Tech;

/// The cell of that number from the text of the generated cells, and its fingers.
pub(crate) fn bench_inputs(alloc: Global, text: &[u8], cell: u32) -> Result<Inputs, NoMemory>
    requires few { length text.now ≤ MOST_BYTES }
    requires holds { HoldsCell text.now cell }
    ensures { IfOk result (AreInputsOf text.now cell) }
{
    let name = cell_name(alloc, cell)?;
    let tech = Tech::plain(alloc)?;
    tech.show_limits();
    let subckt = match read_cell(alloc, text, &name, &tech) {
        Ok(subckt) => subckt,
        Err(fault) => match fault {
            SpiceFault::NoMemory => {
                // (a call, here and below, whose proof is short: in place all its parts would be dropped one by one)
                drop(tech);
                return Err(NoMemory);
            }
            _ => unreachable!(),
        },
    };
    let fingers = match fold(alloc, &subckt, &tech) {
        Ok(fingers) => fingers,
        Err(fault) => match fault {
            FoldFault::NoMemory => {
                drop(subckt);
                drop(tech);
                return Err(NoMemory);
            }
            _ => unreachable!(),
        },
    };
    Ok(Inputs {
        tech,
        cell: subckt,
        fingers,
    })
}
