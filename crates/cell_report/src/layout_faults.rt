ghost use Rattle.std.specs.Prelude.{◌≡◌, ◌++◌, [], codes, OnOk};
ghost use Rattle.cell_report.specs.Faults.{fault_line, with_two};
ghost use Rattle.cell_report.specs.LayoutFaults.{with_one, gds_fault, rule_fault, extract_fault};

use crate::fault_line::{Field, put_fault};
use cell_num::{Bytes, NoMemory};
use gds_area::GdsFault;
use net_extract::ExtractFault;
use scmos_rules::RuleFault;

// A fault at a place of the GDSII file.
fn put_gds_at(out: &mut Bytes, name: &[u8], at: u64) -> Result<(), NoMemory>
    ensures { OnOk result
        (out.new ≡ out.old ++ fault_line (codes "gds") (with_one name.now (codes "at") at)) }
{
    put_fault(out, b"gds", name, &[Field::Number(b"at", at)])
}

// A fault of the record of a type at a place.
fn put_gds_code(out: &mut Bytes, name: &[u8], at: u64, code: u8) -> Result<(), NoMemory>
    ensures { OnOk result
        (out.new ≡ out.old ++ fault_line (codes "gds") (with_two name.now (codes "at") at (codes "code") code)) }
{
    let at = Field::Number(b"at", at);
    put_fault(
        out,
        b"gds",
        name,
        &[at, Field::Number(b"code", u64::from(code))],
    )
}

/// Adds the line of a fault of a GDSII file.
pub fn put_gds(out: &mut Bytes, fault: &GdsFault) -> Result<(), NoMemory>
    ensures { OnOk result (out.new ≡ out.old ++ fault_line (codes "gds") (gds_fault fault.now)) }
{
    match fault {
        GdsFault::Cut { at } => put_gds_at(out, b"Cut", *at),
        GdsFault::Length { at } => put_gds_at(out, b"Length", *at),
        GdsFault::Order { at, code } => put_gds_code(out, b"Order", *at, *code),
        GdsFault::Kind { at, code } => put_gds_code(out, b"Kind", *at, *code),
        GdsFault::Unit { picometres } => {
            put_fault(
                out,
                b"gds",
                b"Unit",
                &[Field::Number(b"picometres", *picometres)],
            )
        }
        GdsFault::NoCell => put_fault(out, b"gds", b"NoCell", &[]),
        GdsFault::Twice { name } => {
            put_fault(
                out,
                b"gds",
                b"Twice",
                &[Field::Text(b"name", name.as_slice())],
            )
        }
        GdsFault::Slant { at } => put_gds_at(out, b"Slant", *at),
        GdsFault::Grid { at } => put_gds_at(out, b"Grid", *at),
        GdsFault::Reference { at } => put_gds_at(out, b"Reference", *at),
        GdsFault::NoMemory => put_fault(out, b"gds", b"NoMemory", &[]),
        GdsFault::Deep { at } => put_gds_at(out, b"Deep", *at),
        GdsFault::Wide { at } => put_gds_at(out, b"Wide", *at),
    }
}

/// Adds the line of a fault of the check of the rules.
pub fn put_rules(out: &mut Bytes, fault: &RuleFault) -> Result<(), NoMemory>
    ensures { OnOk result (out.new ≡ out.old ++ fault_line (codes "rules") (rule_fault fault.now)) }
{
    match fault {
        RuleFault::TooMany { count } => {
            put_fault(
                out,
                b"rules",
                b"TooMany",
                &[Field::Number(b"count", *count)],
            )
        }
        RuleFault::NoMemory => put_fault(out, b"rules", b"NoMemory", &[]),
    }
}

/// Adds the line of a fault of extraction.
pub fn put_extract(out: &mut Bytes, fault: &ExtractFault) -> Result<(), NoMemory>
    ensures { OnOk result (out.new ≡ out.old ++ fault_line (codes "extract") (extract_fault fault.now)) }
{
    match fault {
        ExtractFault::TooMany { count } => {
            let count = Field::Number(b"count", *count);
            put_fault(out, b"extract", b"TooMany", &[count])
        }
        ExtractFault::OddDevice { x, y } => {
            let x = Field::Signed(b"x", i64::from(*x));
            let y = Field::Signed(b"y", i64::from(*y));
            put_fault(out, b"extract", b"OddDevice", &[x, y])
        }
        ExtractFault::Stray { name } => {
            let name = Field::Text(b"name", name.as_slice());
            put_fault(out, b"extract", b"Stray", &[name])
        }
        ExtractFault::Short { one, other } => {
            let one = Field::Text(b"one", one.as_slice());
            let other = Field::Text(b"other", other.as_slice());
            put_fault(out, b"extract", b"Short", &[one, other])
        }
        ExtractFault::Split { name } => {
            let name = Field::Text(b"name", name.as_slice());
            put_fault(out, b"extract", b"Split", &[name])
        }
        ExtractFault::NoMemory => put_fault(out, b"extract", b"NoMemory", &[]),
    }
}
