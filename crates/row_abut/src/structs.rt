// The structures of a row.

ghost use Rattle.std.specs.Prelude.{◌≡◌, ◌≤◌, ◌*◌, [], All, IfOk, length, map};
ghost use Rattle.row_abut.specs.Cells.{IsRowCell};
ghost use Rattle.row_abut.specs.Measures.{MOST_CELLS, MOST_REACH};
ghost use Rattle.row_abut.specs.Row.{standing};
ghost use Rattle.row_abut.specs.Structs.{has_name, first_uses, struct_of, ref_to, ref_at, top_of, abutted};

use crate::RowCell;
use crate::labels::row_labels;
use box_geom::{ShapeList, Shapes};
use cell_num::{Name, NoMemory};
use gds_write::{Ref, RefList, Struct, StructList};
use std::alloc::Global;

fn has_name(cells: &[RowCell], name: &[u8]) -> bool
    ensures { result ≡ has_name cells.now name.now }
{
    cells.iter().any(|cell| cell.name.as_slice() == name)
}

fn struct_of(alloc: Global, cell: &RowCell) -> Result<Struct, NoMemory>
    ensures { IfOk result (λ s. s ≡ struct_of cell.now) }
{
    Ok(Struct {
        name: cell.name.clone()?,
        shapes: cell.drawing.shapes.clone()?,
        refs: RefList::new(alloc),
    })
}

// One for each name, at its first use.
fn cell_structs(alloc: Global, cells: &[RowCell]) -> Result<StructList, NoMemory>
    ensures { IfOk result (λ structs. structs ≡ map struct_of (first_uses [] cells.now)) }
{
    let mut structs = StructList::new(alloc);
    'cells: for (number, cell) in cells.iter().enumerate() {
        if !has_name(&cells[..number], cell.name.as_slice()) {
            structs.push(struct_of(alloc, cell)?)?;
        }
    }
    Ok(structs)
}

// A reference to the cell's structure at x.
fn ref_to(cell: &RowCell, x: u32) -> Result<Ref, NoMemory>
    requires { x ≤ MOST_REACH * MOST_CELLS }
    ensures { IfOk result (λ r. r ≡ ref_to cell.now.name x) }
{
    Ok(Ref {
        name: cell.name.clone()?,
        x: x as i32,
        y: 0,
    })
}

fn refs(alloc: Global, cells: &[RowCell]) -> Result<RefList, NoMemory>
    requires few { length cells.now ≤ MOST_CELLS }
    requires cells { All IsRowCell cells.now }
    ensures { IfOk result (λ refs. refs ≡ map ref_at (standing cells.now)) }
{
    let mut refs = RefList::new(alloc);
    let mut x = 0;
    'cells: for cell in cells {
        refs.push(ref_to(cell, x)?)?;
        x += cell.drawing.width;
    }
    Ok(refs)
}

fn top_of(alloc: Global, top: &Name, cells: &[RowCell]) -> Result<Struct, NoMemory>
    requires few { length cells.now ≤ MOST_CELLS }
    requires cells { All IsRowCell cells.now }
    ensures { IfOk result (λ s. s ≡ top_of top.now cells.now) }
{
    Ok(Struct {
        name: top.clone()?,
        shapes: Shapes {
            rects: ShapeList::new(alloc),
            labels: row_labels(alloc, cells)?,
        },
        refs: refs(alloc, cells)?,
    })
}

/// The structures of the different cells, then that of the row.
pub fn abutted(alloc: Global, top: &Name, cells: &[RowCell]) -> Result<StructList, NoMemory>
    requires few { length cells.now ≤ MOST_CELLS }
    requires cells { All IsRowCell cells.now }
    ensures { IfOk result (λ structs. structs ≡ abutted top.now cells.now) }
{
    let mut structs = cell_structs(alloc, cells)?;
    structs.push(top_of(alloc, top, cells)?)?;
    Ok(structs)
}
