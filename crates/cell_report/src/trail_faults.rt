ghost use Rattle.std.specs.Prelude.{◌≡◌, ◌++◌, codes, OnOk};
ghost use Rattle.cell_report.specs.Faults.{fault_line, log_fault};
ghost use Rattle.cell_report.specs.LayoutFaults.{with_one, with_text};
ghost use Rattle.cell_report.specs.Names.{name_of};
ghost use Rattle.cell_report.specs.TrailFaults.{trail_fault};

use crate::fault_line::{Field, put_fault};
use crate::faults::{put_cause, put_text_fault};
use bound_log::LogFault;
use cell_num::{Bytes, Names, NetNo, NoMemory};
use trail_check::TrailRefusal;

/// Adds the line of a fault of the text of a certificate by trails.
pub fn put_trails(out: &mut Bytes, fault: &LogFault) -> Result<(), NoMemory>
    ensures { OnOk result (out.new ≡ out.old ++ fault_line (codes "trails") (log_fault fault.now)) }
{
    put_text_fault(out, b"trails", fault)
}

// A cause of one number, after its name.
fn put_one(out: &mut Bytes, name: &[u8], field: &[u8], count: u32) -> Result<(), NoMemory>
    ensures { OnOk result
        (out.new ≡ out.old ++ fault_line (codes "trails") (with_one name.now field.now count)) }
{
    put_fault(
        out,
        b"trails",
        name,
        &[Field::Number(field, u64::from(count))],
    )
}

// The gate with too many ways, by the name of its net.
fn put_choices(out: &mut Bytes, nets: &Names, gate: NetNo) -> Result<(), NoMemory>
    ensures { OnOk result (out.new ≡ out.old
        ++ fault_line (codes "trails") (with_text (codes "Choices") (codes "gate") (name_of nets.now gate.0))) }
{
    let gate = match nets.get(gate.0 as usize) {
        Some(name) => Field::Text(b"gate", name.as_slice()),
        None => Field::Text(b"gate", b""),
    };
    put_fault(out, b"trails", b"Choices", &[gate])
}

/// Adds the line of the cause that refuses a certificate by trails. A gate is named by its net.
pub fn put_trail_refusal(
    out: &mut Bytes,
    nets: &Names,
    cause: &TrailRefusal,
) -> Result<(), NoMemory>
    ensures { OnOk result
        (out.new ≡ out.old ++ fault_line (codes "trails") (trail_fault nets.now cause.now)) }
{
    match cause {
        TrailRefusal::Gates => put_fault(out, b"trails", b"Gates", &[]),
        TrailRefusal::Choices { gate } => put_choices(out, nets, *gate),
        TrailRefusal::Line { line } => put_one(out, b"Line", b"line", *line),
        TrailRefusal::Unproved { line } => put_one(out, b"Unproved", b"line", *line),
        TrailRefusal::NoRow { best } => put_one(out, b"NoRow", b"best", *best),
        TrailRefusal::NotArrangement => put_fault(out, b"trails", b"NotArrangement", &[]),
        TrailRefusal::Gaps { said, counted } => {
            put_cause(
                out, b"trails", b"Gaps", b"said", *said, b"counted", *counted,
            )
        }
        TrailRefusal::NotLeast { best, said } => {
            put_cause(out, b"trails", b"NotLeast", b"best", *best, b"said", *said)
        }
        TrailRefusal::NoMemory => put_fault(out, b"trails", b"NoMemory", &[]),
    }
}
