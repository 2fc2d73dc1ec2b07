ghost use Rattle.std.specs.Prelude.{◌≡◌, ◌++◌, codes, OnOk};
ghost use Rattle.cell_report.specs.Faults.{at_line, fault_line};
ghost use Rattle.cell_report.specs.AbstractFaults.{differ_text, lef_fault, metal_text};

use crate::fault_line::{Field, put_fault};
use crate::layout_faults::put_extract;
use box_geom::Layer;
use cell_num::{Bytes, NoMemory};
use lef_read::{Differ, LefFault};

// A fault of a line of the LEF file.
fn put_lef_line(out: &mut Bytes, name: &[u8], line: u32) -> Result<(), NoMemory>
    ensures { OnOk result (out.new ≡ out.old ++ fault_line (codes "lef") (at_line name.now line)) }
{
    put_fault(
        out,
        b"lef",
        name,
        &[Field::Number(b"line", u64::from(line))],
    )
}

/// Adds the line of a fault of a LEF file.
pub fn put_lef(out: &mut Bytes, fault: &LefFault) -> Result<(), NoMemory>
    ensures { OnOk result (out.new ≡ out.old ++ fault_line (codes "lef") (lef_fault fault.now)) }
{
    match fault {
        LefFault::Statement { line } => put_lef_line(out, b"Statement", *line),
        LefFault::Number { line } => put_lef_line(out, b"Number", *line),
        LefFault::Cut => put_fault(out, b"lef", b"Cut", &[]),
        LefFault::NoMacro => put_fault(out, b"lef", b"NoMacro", &[]),
        LefFault::Grid { line } => put_lef_line(out, b"Grid", *line),
        LefFault::NoMemory => put_fault(out, b"lef", b"NoMemory", &[]),
    }
}

fn metal_text(layer: Layer) -> &'static [u8]
    ensures { result.now ≡ metal_text layer }
{
    if layer == Layer::Metal2 {
        b"metal2"
    } else {
        b"metal1"
    }
}

/// Adds the line of a difference between the macro of an abstract and a drawing.
pub fn put_differ(out: &mut Bytes, differ: &Differ) -> Result<(), NoMemory>
    ensures { OnOk result (out.new ≡ out.old ++ differ_text differ.now) }
{
    match differ {
        Differ::Extract(fault) => put_extract(out, fault),
        Differ::NoLabel { name } => {
            let name = Field::Text(b"name", name.as_slice());
            put_fault(out, b"agree", b"NoLabel", &[name])
        }
        Differ::Port { name, x, y } => {
            let name = Field::Text(b"name", name.as_slice());
            let x = Field::Signed(b"x", i64::from(*x));
            let y = Field::Signed(b"y", i64::from(*y));
            put_fault(out, b"agree", b"Port", &[name, x, y])
        }
        Differ::Bare { layer, x, y } => {
            let layer = Field::Text(b"layer", metal_text(*layer));
            let x = Field::Signed(b"x", i64::from(*x));
            let y = Field::Signed(b"y", i64::from(*y));
            put_fault(out, b"agree", b"Bare", &[layer, x, y])
        }
        Differ::NoMemory => put_fault(out, b"agree", b"NoMemory", &[]),
    }
}
