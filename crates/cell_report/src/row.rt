ghost use Rattle.std.specs.Prelude.{◌≡◌, ◌≤◌, ◌++◌, OnOk, length};
ghost use Rattle.row_model.specs.Arrangement.{gate_in};
ghost use Rattle.cell_report.specs.Rows.{place_text, gate_text, column_text, columns_text, row_text, plan_text};

use crate::names::put_net;
use cell_num::{Bytes, Name, Names, NoMemory, put_count, put_number, put_text};
use row_model::{Arrangement, Column, Placed, gaps};

fn put_gate(out: &mut Bytes, nets: &Names, column: &Column) -> Result<(), NoMemory>
    ensures { OnOk result (out.new ≡ out.old ++ gate_text nets.now (gate_in column.now.p column.now.n)) }
{
    match column.gate() {
        Some(gate) => put_net(out, nets, gate.0),
        None => Ok(()),
    }
}

fn put_place(out: &mut Bytes, nets: &Names, place: &Option<Placed>) -> Result<(), NoMemory>
    ensures { OnOk result (out.new ≡ out.old ++ place_text nets.now place.now) }
{
    let Some(placed) = place else {
        return out.extend(b"- - 0");
    };
    put_net(out, nets, placed.left().0)?;
    out.extend(b" ")?;
    put_net(out, nets, placed.right().0)?;
    out.extend(b" ")?;
    put_number(out, u64::from(placed.finger.width))
}

fn put_column(out: &mut Bytes, nets: &Names, at: usize, column: &Column) -> Result<(), NoMemory>
    ensures { OnOk result (out.new ≡ out.old ++ column_text nets.now (at, column.now)) }
{
    out.extend(b"column ")?;
    put_number(out, at as u64)?;
    out.extend(b" gate ")?;
    put_gate(out, nets, column)?;
    out.extend(b" p ")?;
    put_place(out, nets, &column.p)?;
    out.extend(b" n ")?;
    put_place(out, nets, &column.n)?;
    out.extend(b"\n")
}

fn put_columns(out: &mut Bytes, nets: &Names, row: &Arrangement) -> Result<(), NoMemory>
    ensures { OnOk result (out.new ≡ out.old ++ columns_text nets.now row.now) }
{
    'columns: for (at, column) in row.as_slice().iter().enumerate() {
        put_column(out, nets, at, column)?;
    }
    Ok(())
}

/// Adds the cell's name, the columns and gaps of its row, and its width, which is their sum.
pub fn put_row(out: &mut Bytes, name: &Name, columns: u64, gaps: u32) -> Result<(), NoMemory>
    requires { columns ≤ 1000000 }
    ensures { OnOk result (out.new ≡ out.old ++ row_text name.now columns gaps) }
{
    let gaps = u64::from(gaps);
    put_text(out, b"cell ", name.as_slice())?;
    put_count(out, b"columns ", columns)?;
    put_count(out, b"gaps ", gaps)?;
    put_count(out, b"width ", columns + gaps)
}

/// Adds the lines of [`put_row`] of a row of at most 64 columns, and a line for each column: the net at its gate, and
/// for each row the nets at the left and the right end of its finger and the finger's width in grid units.
pub fn put_plan(
    out: &mut Bytes,
    name: &Name,
    nets: &Names,
    row: &Arrangement,
) -> Result<(), NoMemory>
    requires { length row.now ≤ 64 }
    ensures { OnOk result (out.new ≡ out.old ++ plan_text name.now nets.now row.now) }
{
    put_row(out, name, row.len() as u64, gaps(row))?;
    put_columns(out, nets, row)
}
