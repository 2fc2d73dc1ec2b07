ghost use Rattle.std.specs.Prelude.{◌≡◌, ◌++◌, codes, OnOk};
ghost use Rattle.cell_report.specs.Faults.{fault_line, with_two};
ghost use Rattle.cell_report.specs.RowFaults.{row_fault};

use crate::fault_line::{Field, put_fault};
use cell_num::{Bytes, NoMemory};
use row_abut::RowFault;

// A fault of two numbers, each with its word.
fn put_two(
    out: &mut Bytes,
    name: &[u8],
    one: &[u8],
    first: u32,
    other: &[u8],
    second: u32,
) -> Result<(), NoMemory>
    ensures { OnOk result (out.new ≡ out.old
        ++ fault_line (codes "row") (with_two name.now one.now first other.now second)) }
{
    let first = Field::Number(one, u64::from(first));
    put_fault(
        out,
        b"row",
        name,
        &[first, Field::Number(other, u64::from(second))],
    )
}

/// Adds the line that says why cells can't be side by side.
pub fn put_row_fault(out: &mut Bytes, fault: &RowFault) -> Result<(), NoMemory>
    ensures { OnOk result (out.new ≡ out.old ++ fault_line (codes "row") (row_fault fault.now)) }
{
    match fault {
        RowFault::Heights { first, other } => {
            put_two(out, b"Heights", b"first", *first, b"other", *other)
        }
        RowFault::Channel { left, right } => {
            put_two(out, b"Channel", b"left", *left, b"right", *right)
        }
        RowFault::NoMemory => put_fault(out, b"row", b"NoMemory", &[]),
    }
}
