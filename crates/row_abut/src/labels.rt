// The labels of a row.

ghost use Rattle.std.specs.Prelude.{◌≡◌, ◌≤◌, ◌*◌, ◌++◌, [], ◌∷◌, bytes_eq, map, not, All, IfOk, OnOk, length};
ghost use Rattle.std.specs.List.{filter};
ghost use Rattle.row_abut.specs.Cells.{IsLabelInReach, IsRowCell};
ghost use Rattle.row_abut.specs.Measures.{MOST_CELLS, MOST_REACH};
ghost use Rattle.row_abut.specs.Row.{is_rail, numbered_name, label_at, labels_at, rail_labels, row_labels};

use crate::RowCell;
use box_geom::{Label, LabelList};
use cell_num::{Name, NoMemory, put_number};
use std::alloc::Global;

fn is_rail(cell: &RowCell, name: &[u8]) -> bool
    ensures { result ≡ is_rail cell.now name.now }
{
    name == cell.net_name(cell.pins.vdd) || name == cell.net_name(cell.pins.gnd)
}

fn numbered_name(alloc: Global, number: usize, name: &[u8]) -> Result<Name, NoMemory>
    ensures { IfOk result (λ n. n ≡ numbered_name number name.now) }
{
    let mut out = Name::new(alloc);
    put_number(&mut out, number as u64)?;
    out.extend(b"#")?;
    out.extend(name)?;
    Ok(out)
}

// A label of the cell of that number, which begins at x.
fn label_at(alloc: Global, label: &Label, number: usize, x: u32) -> Result<Label, NoMemory>
    requires label { IsLabelInReach label.now }
    requires x { x ≤ MOST_REACH * MOST_CELLS }
    ensures { IfOk result (λ l. l ≡ label_at number x label.now) }
{
    Ok(Label {
        layer: label.layer,
        x: label.x + x as i32,
        y: label.y,
        name: numbered_name(alloc, number, label.name.as_slice())?,
    })
}

// Adds a label of the cell, unless it is a rail's.
fn add_label(
    alloc: Global,
    out: &mut LabelList,
    cell: &RowCell,
    label: &Label,
    number: usize,
    x: u32,
) -> Result<(), NoMemory>
    requires label { IsLabelInReach label.now }
    requires x { x ≤ MOST_REACH * MOST_CELLS }
    ensures { OnOk result (out.new ≡ out.old ++ map (label_at number x)
        (filter (λ l. not (is_rail cell.now l.name)) (label.now ∷ []))) }
{
    if is_rail(cell, label.name.as_slice()) {
        return Ok(());
    }
    out.push(label_at(alloc, label, number, x)?)?;
    Ok(())
}

fn add_labels(
    alloc: Global,
    out: &mut LabelList,
    cell: &RowCell,
    number: usize,
    x: u32,
) -> Result<(), NoMemory>
    requires cell { IsRowCell cell.now }
    requires x { x ≤ MOST_REACH * MOST_CELLS }
    ensures { OnOk result (out.new ≡ out.old ++ labels_at (record { number = number; x = x; cell = cell.now })) }
{
    for label in cell.drawing.shapes.labels.as_slice() {
        add_label(alloc, out, cell, label, number, x)?;
    }
    Ok(())
}

fn add_named(out: &mut LabelList, label: &Label, name: &[u8]) -> Result<(), NoMemory>
    ensures { OnOk result (out.new ≡ out.old ++ filter (λ l. bytes_eq l.name name.now) (label.now ∷ [])) }
{
    if label.name.as_slice() != name {
        return Ok(());
    }
    out.push(label.clone()?)?;
    Ok(())
}

fn add_labels_named(out: &mut LabelList, labels: &[Label], name: &[u8]) -> Result<(), NoMemory>
    ensures { OnOk result (out.new ≡ out.old ++ filter (λ l. bytes_eq l.name name.now) labels.now) }
{
    for label in labels {
        add_named(out, label, name)?;
    }
    Ok(())
}

fn add_rail_labels(out: &mut LabelList, cells: &[RowCell]) -> Result<(), NoMemory>
    ensures { OnOk result (out.new ≡ out.old ++ rail_labels cells.now) }
{
    let Some(cell) = cells.first() else {
        return Ok(());
    };
    let labels = cell.drawing.shapes.labels.as_slice();
    add_labels_named(out, labels, cell.net_name(cell.pins.vdd))?;
    add_labels_named(out, labels, cell.net_name(cell.pins.gnd))
}

/// The labels of all cells, where they are no rail's, and those of the first cell's rails.
pub fn row_labels(alloc: Global, cells: &[RowCell]) -> Result<LabelList, NoMemory>
    requires few { length cells.now ≤ MOST_CELLS }
    requires cells { All IsRowCell cells.now }
    ensures { IfOk result (λ labels. labels ≡ row_labels cells.now) }
{
    let mut labels = LabelList::new(alloc);
    let mut x = 0;
    'cells: for (number, cell) in cells.iter().enumerate() {
        add_labels(alloc, &mut labels, cell, number, x)?;
        x += cell.drawing.width;
    }
    add_rail_labels(&mut labels, cells)?;
    Ok(labels)
}
