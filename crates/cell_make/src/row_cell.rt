ghost use Rattle.std.specs.Prelude.{◌≡◌, IfErr, IfOk, IsTrue, Ok};
ghost use Rattle.cell_num.specs.Names.{is_cell};
ghost use Rattle.cell_make.specs.Rowed.{AreInputsOf};
ghost use Rattle.tech_file.specs.Technology.{IsTechnology};
ghost use Rattle.cell_make.specs.RowSteps.{IsCellOf, IsStop};
ghost use Rattle.spice_net.specs.Chosen.{lines_in};

use crate::drawn_cell::{first_cell, lowest_cell};
use crate::row_inputs::RowInputs;
use crate::row_stop::RowStop;
use cell_inputs::{Inputs, LeastRow};
use cell_num::{Name, NoMemory};
use finger_fold::fold;
use row_abut::RowCell;
use spice_net::read_cell_in;
use spice_text::Lines;
use std::alloc::Global;
use tech_file::Tech;

// The same technology again, for the inputs of a cell.
fn copied(tech: &Tech) -> Result<Tech, NoMemory>
    ensures exact { IfOk result (λ copy. copy ≡ tech.now) }
    ensures limits { IfOk result IsTechnology }
{
    let copy = tech.clone()?;
    copy.show_limits();
    Ok(copy)
}

// The inputs of the cell of that name, of the lines of the row's file.
fn inputs_of(alloc: Global, row: &RowInputs, lines: &Lines, name: &Name) -> Result<Inputs, RowStop>
    requires cell { IsTrue (is_cell name.now) }
    requires lines { lines_in row.now.spice ≡ Ok lines.now }
    ensures inputs { IfOk result (AreInputsOf row.now) }
    ensures name { IfOk result (λ inputs. inputs.cell.name ≡ name.now) }
    ensures stops { IfErr result (IsStop row.now name.now) }
{
    row.show_limits();
    let cell = read_cell_in(alloc, lines.as_slice(), name, &row.tech)?;
    let fingers = fold(alloc, &cell, &row.tech)?;
    let tech = copied(&row.tech)?;
    Ok(Inputs {
        tech,
        cell,
        fingers,
    })
}

/// Makes the cell of that name, of the lines of the row's file, with straight trunks and no taps.
pub fn made_cell(
    alloc: Global,
    row: &RowInputs,
    lines: &Lines,
    name: &Name,
) -> Result<RowCell, RowStop>
    requires cell { IsTrue (is_cell name.now) }
    requires lines { lines_in row.now.spice ≡ Ok lines.now }
    ensures made { IfOk result (IsCellOf row.now name.now) }
    ensures stops { IfErr result (IsStop row.now name.now) }
{
    let inputs = inputs_of(alloc, row, lines, name)?;
    match row.choice {
        LeastRow::First => first_cell(alloc, inputs),
        LeastRow::Lowest => lowest_cell(alloc, inputs),
    }
}
