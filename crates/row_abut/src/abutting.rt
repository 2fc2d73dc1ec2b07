ghost use Rattle.std.specs.Prelude.{◌≡◌, ◌≢◌, ◌↔◌, ◌≤◌, ℕ, List, Err, All, AllPairs, IfOk, length};
ghost use Rattle.std.specs.List.{AllZip};
ghost use Rattle.cell_num.specs.declared.finger.Fingers.{Fingers};
ghost use Rattle.scmos_rules.specs.Rules.{Obeys};
ghost use Rattle.scmos_rules.specs.declared.rules.Deck.TheVariants.{Plain};
ghost use Rattle.cell_draw.specs.Extracted.{ExtractsTo};
ghost use Rattle.row_abut.specs.Cells.{IsRowCell, HaveSameRails, AreOneByName, AreDrawn};
ghost use Rattle.row_abut.specs.Circuit.{names_of_row, fingers_of_row, IsCircuit};
ghost use Rattle.row_abut.specs.Faults.{DifferInHeight, ClashInChannel};
ghost use Rattle.row_abut.specs.Measures.{MOST_CELLS};
ghost use Rattle.row_abut.specs.Row.{flat_row};
ghost use Rattle.row_abut.specs.Structs.{abutted};
ghost use Rattle.row_abut.specs.declared.cell.RowCell.{RowCell};
ghost use Rattle.row_abut.specs.declared.cell.RowFault.TheVariants.{Heights, Channel};

use crate::fault::{first_clash, first_height, other_height};
use crate::structs::abutted;
use crate::{RowCellList, RowFault};
use cell_num::Name;
use gds_write::StructList;
use std::alloc::Global;

/// Puts 1 to [`MOST_CELLS`](crate::MOST_CELLS) cells side by side, from the left: a structure for each different cell,
/// then the top, which refers to each cell in its place. The nets of cell K except the rails are labelled `K#name`
/// there, K from 0; the rails are common. Drawn cells of one height whose channels fit obey the rules side by side and
/// are all their circuits.
pub fn abut(alloc: Global, top: &Name, cells: &RowCellList) -> Result<StructList, RowFault>
    requires some { 1 ≤ length cells.now }
    requires few { length cells.now ≤ MOST_CELLS }
    requires cells { All IsRowCell cells.now }
    requires rails { AllPairs HaveSameRails cells.now }
    requires once { AllPairs AreOneByName cells.now }
    requires top { All (λ (c : RowCell). c.name ≢ top.now) cells.now }
    ensures exact { IfOk result (λ structs. structs ≡ abutted top.now cells.now) }
    ensures heights { (first other : ℕ) → DifferInHeight cells.now first other ↔ (result ≡ Err (Heights first other)) }
    ensures channel { (left right : ℕ) → ClashInChannel cells.now left right ↔ (result ≡ Err (Channel left right)) }
    ensures obeys { AreDrawn cells.now → IfOk result (λ _. Obeys Plain (flat_row cells.now).rects) }
    ensures extracts { (fingers : List Fingers) → AreDrawn cells.now → AllZip IsCircuit cells.now fingers
        → IfOk result (λ _. ExtractsTo Plain (names_of_row cells.now) (fingers_of_row cells.now fingers)
        (flat_row cells.now)) }
{
    let cells = cells.as_slice();
    let first = first_height(cells);
    if let Some(other) = other_height(cells, first) {
        return Err(RowFault::Heights { first, other });
    }
    if let Some(left) = first_clash(cells) {
        return Err(RowFault::Channel {
            left: left as u32,
            right: left as u32 + 1,
        });
    }
    Ok(abutted(alloc, top, cells)?)
}
