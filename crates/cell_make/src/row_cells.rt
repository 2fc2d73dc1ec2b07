ghost use Rattle.std.specs.Prelude.{◌≡◌, IfErr, IfOk, IsTrue, Ok, find, option_map};
ghost use Rattle.cell_num.specs.Names.{is_cell};
ghost use Rattle.spice_net.specs.Chosen.{lines_in};
ghost use Rattle.cell_make.specs.RowSteps.{AreCellsOf, IsNextCell, IsStop, Stops, has_name};

use crate::row_cell::made_cell;
use crate::row_inputs::RowInputs;
use crate::row_stop::RowStop;
use cell_num::{Name, NoMemory};
use row_abut::{RowCell, RowCellList};
use spice_net::split_file;
use spice_text::Lines;
use std::alloc::Global;

fn cell_named<'a>(cells: &'a [RowCell], name: &[u8]) -> Option<&'a RowCell>
    ensures { option_map (λ cell. cell.now) result ≡ find (has_name name.now) cells.now }
{
    cells.iter().find(|cell| cell.name.as_slice() == name)
}

// The same cell again.
fn copied(cell: &RowCell) -> Result<RowCell, NoMemory>
    ensures { IfOk result (λ copy. copy ≡ cell.now) }
{
    Ok(cell.clone()?)
}

// The cell of that name: the one that was made before, or a new one.
fn next_cell(
    alloc: Global,
    row: &RowInputs,
    lines: &Lines,
    before: &[RowCell],
    name: &Name,
) -> Result<RowCell, RowStop>
    requires cell { IsTrue (is_cell name.now) }
    requires lines { lines_in row.now.spice ≡ Ok lines.now }
    ensures next { IfOk result (IsNextCell row.now name.now (find (has_name name.now) before.now)) }
    ensures stops { IfErr result (IsStop row.now name.now) }
{
    match cell_named(before, name.as_slice()) {
        Some(cell) => Ok(copied(cell)?),
        None => made_cell(alloc, row, lines, name),
    }
}

/// The cells of a row from the left, each different one made once. The file is split into lines once for all of them.
pub fn made_cells(alloc: Global, row: &RowInputs) -> Result<RowCellList, RowStop>
    ensures made { IfOk result (AreCellsOf row.now row.now.names) }
    ensures stops { IfErr result (Stops row.now) }
{
    row.show_limits();
    let bytes = row.spice.as_slice();
    let lines = split_file(alloc, bytes)?;
    let mut cells = RowCellList::new(alloc);
    'names: for name in row.names.as_slice() {
        let cell = next_cell(alloc, row, &lines, cells.as_slice(), name)?;
        cells.push(cell)?;
    }
    Ok(cells)
}
