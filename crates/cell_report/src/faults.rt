ghost use Rattle.std.specs.Prelude.{◌≡◌, ◌++◌, [], codes, OnOk};
ghost use Rattle.cell_report.specs.Faults.{fault_line, fault_of, at_line, with_two, tech_fault, what_text};
ghost use Rattle.cell_report.specs.Faults.{spice_fault, fold_fault, log_fault, check_fault};

use crate::fault_line::{Field, put_fault};
use bound_log::LogFault;
use cell_num::{Bytes, NoMemory};
use finger_fold::FoldFault;
use log_check::Refused;
use spice_net::{SpiceFault, What};
use tech_file::TechFault;

/// Adds the line of a fault of the technology.
pub fn put_tech(out: &mut Bytes, fault: &TechFault) -> Result<(), NoMemory>
    ensures { OnOk result (out.new ≡ out.old ++ fault_line (codes "tech") (tech_fault fault.now)) }
{
    match fault {
        TechFault::Text => put_fault(out, b"tech", b"Text", &[]),
        TechFault::Key { name } => {
            put_fault(
                out,
                b"tech",
                b"Key",
                &[Field::Text(b"name", name.as_slice())],
            )
        }
        TechFault::Form { name } => {
            put_fault(
                out,
                b"tech",
                b"Form",
                &[Field::Text(b"name", name.as_slice())],
            )
        }
        TechFault::Range { name, value } => {
            let name = Field::Text(b"name", name.as_slice());
            put_fault(
                out,
                b"tech",
                b"Range",
                &[name, Field::Signed(b"value", *value)],
            )
        }
        TechFault::NoMemory => put_fault(out, b"tech", b"NoMemory", &[]),
    }
}

// A fault of the SPICE file that has no fields.
fn put_spice_alone(out: &mut Bytes, name: &[u8]) -> Result<(), NoMemory>
    ensures { OnOk result (out.new ≡ out.old ++ fault_line (codes "spice") (fault_of name.now [])) }
{
    put_fault(out, b"spice", name, &[])
}

// A fault of a line of the SPICE file.
fn put_spice_line(out: &mut Bytes, name: &[u8], line: u32) -> Result<(), NoMemory>
    ensures { OnOk result
        (out.new ≡ out.old ++ fault_line (codes "spice") (at_line name.now line)) }
{
    put_fault(
        out,
        b"spice",
        name,
        &[Field::Number(b"line", u64::from(line))],
    )
}

// A fault of a length in a line of the SPICE file.
fn put_spice_units(out: &mut Bytes, name: &[u8], line: u32, units: u32) -> Result<(), NoMemory>
    ensures { OnOk result
        (out.new ≡ out.old
        ++ fault_line (codes "spice") (with_two name.now (codes "line") line (codes "units") units)) }
{
    let line = Field::Number(b"line", u64::from(line));
    put_fault(
        out,
        b"spice",
        name,
        &[line, Field::Number(b"units", u64::from(units))],
    )
}

fn what_text(what: What) -> &'static [u8]
    ensures { result.now ≡ what_text what }
{
    match what {
        What::Pins => b"pins",
        What::Devices => b"devices",
        What::Nets => b"nets",
    }
}

/// Adds the line of a fault of the SPICE file.
pub fn put_spice(out: &mut Bytes, fault: &SpiceFault) -> Result<(), NoMemory>
    ensures { OnOk result (out.new ≡ out.old ++ fault_line (codes "spice") (spice_fault fault.now)) }
{
    match fault {
        SpiceFault::NotAscii { line } => put_spice_line(out, b"NotAscii", *line),
        SpiceFault::NoCell => put_spice_alone(out, b"NoCell"),
        SpiceFault::Unended => put_spice_alone(out, b"Unended"),
        SpiceFault::Element { line } => put_spice_line(out, b"Element", *line),
        SpiceFault::Fields { line } => put_spice_line(out, b"Fields", *line),
        SpiceFault::Model { line } => put_spice_line(out, b"Model", *line),
        SpiceFault::Number { line } => put_spice_line(out, b"Number", *line),
        SpiceFault::Length { line, units } => put_spice_units(out, b"Length", *line, *units),
        SpiceFault::Narrow { line, units } => put_spice_units(out, b"Narrow", *line, *units),
        SpiceFault::Body { line } => put_spice_line(out, b"Body", *line),
        SpiceFault::Rail { line } => put_spice_line(out, b"Rail", *line),
        SpiceFault::NoRail => put_spice_alone(out, b"NoRail"),
        SpiceFault::IdlePin { name } => {
            put_fault(
                out,
                b"spice",
                b"IdlePin",
                &[Field::Text(b"name", name.as_slice())],
            )
        }
        SpiceFault::Empty => put_spice_alone(out, b"Empty"),
        SpiceFault::TooMany { what, count } => {
            let what = Field::Text(b"what", what_text(*what));
            put_fault(
                out,
                b"spice",
                b"TooMany",
                &[what, Field::Number(b"count", *count)],
            )
        }
        SpiceFault::Multiple { line } => put_spice_line(out, b"Multiple", *line),
        SpiceFault::NoMemory => put_spice_alone(out, b"NoMemory"),
    }
}

/// Adds the line of a fault of folding.
pub fn put_fold(out: &mut Bytes, fault: &FoldFault) -> Result<(), NoMemory>
    ensures { OnOk result (out.new ≡ out.old ++ fault_line (codes "fold") (fold_fault fault.now)) }
{
    match fault {
        FoldFault::TooManyFingers { count } => {
            put_fault(
                out,
                b"fold",
                b"TooManyFingers",
                &[Field::Number(b"count", *count)],
            )
        }
        FoldFault::TooManyColumns { count } => {
            put_fault(
                out,
                b"fold",
                b"TooManyColumns",
                &[Field::Number(b"count", *count)],
            )
        }
        FoldFault::NoMemory => put_fault(out, b"fold", b"NoMemory", &[]),
    }
}

/// Adds the line of a fault of the text of evidence, after the word of that: a log, or a certificate by trails.
pub(crate) fn put_text_fault(out: &mut Bytes, word: &[u8], fault: &LogFault) -> Result<(), NoMemory>
    ensures { OnOk result (out.new ≡ out.old ++ fault_line word.now (log_fault fault.now)) }
{
    match fault {
        LogFault::Version => put_fault(out, word, b"Version", &[]),
        LogFault::Cell => put_fault(out, word, b"Cell", &[]),
        LogFault::Line { line } => {
            put_fault(
                out,
                word,
                b"Line",
                &[Field::Number(b"line", u64::from(*line))],
            )
        }
        LogFault::Cut => put_fault(out, word, b"Cut", &[]),
        LogFault::NoMemory => put_fault(out, word, b"NoMemory", &[]),
    }
}

/// Adds the line of a fault of the text of a log.
pub fn put_log(out: &mut Bytes, fault: &LogFault) -> Result<(), NoMemory>
    ensures { OnOk result (out.new ≡ out.old ++ fault_line (codes "log") (log_fault fault.now)) }
{
    put_text_fault(out, b"log", fault)
}

/// Adds the line of a cause of two numbers, each after its name.
pub(crate) fn put_cause(
    out: &mut Bytes,
    word: &[u8],
    name: &[u8],
    first: &[u8],
    count: u32,
    second: &[u8],
    other: u32,
) -> Result<(), NoMemory>
    ensures { OnOk result
        (out.new ≡ out.old ++ fault_line word.now (with_two name.now first.now count second.now other)) }
{
    let first = Field::Number(first, u64::from(count));
    put_fault(
        out,
        word,
        name,
        &[first, Field::Number(second, u64::from(other))],
    )
}

/// Adds the line of the cause that refuses a log.
pub fn put_refused(out: &mut Bytes, cause: &Refused) -> Result<(), NoMemory>
    ensures { OnOk result (out.new ≡ out.old ++ fault_line (codes "log") (check_fault cause.now)) }
{
    match cause {
        Refused::Unproved { line } => {
            put_fault(
                out,
                b"log",
                b"Unproved",
                &[Field::Number(b"line", u64::from(*line))],
            )
        }
        Refused::NoRow { best } => {
            put_fault(
                out,
                b"log",
                b"NoRow",
                &[Field::Number(b"best", u64::from(*best))],
            )
        }
        Refused::NotArrangement => put_fault(out, b"log", b"NotArrangement", &[]),
        Refused::Gaps { said, counted } => {
            put_cause(out, b"log", b"Gaps", b"said", *said, b"counted", *counted)
        }
        Refused::NotLeast { best, said } => {
            put_cause(out, b"log", b"NotLeast", b"best", *best, b"said", *said)
        }
        Refused::NoMemory => put_fault(out, b"log", b"NoMemory", &[]),
    }
}
