ghost use Rattle.std.specs.Prelude.{◌≡◌, ◌≢◌, ◌≤◌, IfOk, sum_by};
ghost use Rattle.row_abut.specs.declared.cell.RowCell.{RowCell as ACell};
ghost use Rattle.row_abut.specs.declared.cell.RowFault.TheVariants as row_fault;
ghost use Rattle.cell_make.specs.Rowed.{ComesToRow};
ghost use Rattle.cell_make.specs.RowSteps.{AreCellsOf};
ghost use Rattle.cell_make.specs.declared.row_outcome.RowOutcome.TheVariants as outcome;

use crate::row_cells::made_cells;
use crate::row_inputs::RowInputs;
use crate::row_stop::RowStop;
use cell_inputs::Inputs;
use cell_num::{Bytes, NoMemory};
use channel_route::Ring;
use finger_fold::FoldFault;
use gds_write::write_library;
use log_output::KeptLog;
use row_abut::{RowCell, RowCellList, RowFault, abut, first_height};
use spice_net::SpiceFault;
use std::alloc::Global;

/// Why a cell has no inputs.
#[derive(Debug, Drop)]
pub enum InputFault {
    Spice(SpiceFault),
    Fold(FoldFault),
}

/// Why a cell is not drawn.
#[derive(Drop)]
pub enum Undrawn {
    /// Nets of its first least row are above each other in a cycle. Where the lowest row is asked for, no row of its
    /// fingers can be wired.
    Cyclic { ring: Ring },
    /// The given height is below the one that is needed.
    Tall { needed: u32, given: u32 },
    /// The search spent its budget.
    Unfinished { log: KeptLog, proved: u32 },
    /// Nets of its first least row are above each other in a cycle, and the search for a row that can be wired spent
    /// its budget.
    Unwired { ring: Ring },
}

/// The outcome of making a row of cells.
#[derive(Drop)]
pub enum RowOutcome {
    /// The library of the cells and of the row, and the row's size in grid units.
    Rowed {
        library: Bytes,
        width: u32,
        height: u32,
    },
    /// The first cell that is not made has no inputs.
    Refused(InputFault),
    /// The first cell that is not made has no drawing.
    Stopped {
        inputs: Inputs,
        why: Undrawn,
    },
    /// The cells can't be side by side.
    Unabutted(RowFault),
}

fn width_of(cells: &[RowCell]) -> u32
    requires { sum_by (λ (c : ACell). c.drawing.width) cells.now ≤ 2032256 }
    ensures { result ≡ sum_by (λ (c : ACell). c.drawing.width) cells.now }
{
    let mut width = 0;
    for cell in cells {
        width += cell.drawing.width;
    }
    width
}

fn unabutted(fault: RowFault) -> Result<RowOutcome, NoMemory>
    ensures { IfOk result (λ told. (fault ≢ row_fault.NoMemory) × (told ≡ outcome.Unabutted fault)) }
{
    match fault {
        RowFault::NoMemory => Err(NoMemory),
        fault => Ok(RowOutcome::Unabutted(fault)),
    }
}

// The library of made cells, or why they can't be side by side.
fn side_by_side(alloc: Global, row: &RowInputs, cells: &RowCellList) -> Result<RowOutcome, NoMemory>
    requires { AreCellsOf row.now row.now.names cells.now }
    ensures { IfOk result (ComesToRow row.now) }
{
    row.show_limits();
    match abut(alloc, &row.top, cells) {
        Ok(structs) => {
            let library = write_library(alloc, &structs, row.unit_nm())?;
            Ok(RowOutcome::Rowed {
                library: Bytes::from_vec(library),
                width: width_of(cells.as_slice()),
                height: first_height(cells.as_slice()),
            })
        }
        Err(fault) => unabutted(fault),
    }
}

impl RowOutcome {
    /// The library of the cells side by side; or the first cell that is not made, and why; or why they can't be so.
    pub fn of(alloc: Global, row: &RowInputs) -> Result<RowOutcome, NoMemory>
        ensures { IfOk result (ComesToRow row.now) }
    {
        match made_cells(alloc, row) {
            Ok(cells) => side_by_side(alloc, row, &cells),
            Err(RowStop::Refused(fault)) => Ok(RowOutcome::Refused(fault)),
            Err(RowStop::Stopped { inputs, why }) => Ok(RowOutcome::Stopped { inputs, why }),
            Err(RowStop::NoMemory) => Err(NoMemory),
        }
    }
}
