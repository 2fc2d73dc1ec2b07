ghost use Rattle.std.specs.Prelude.{◌≡◌, ◌++◌, OnOk};
ghost use Rattle.std.specs.Fmt.{signed_decimal};
ghost use Rattle.cell_report.specs.Violations.{cell_text, violation_line, violation_text};

use cell_num::{Bytes, NoMemory};
use itoa::Buffer;
use scmos_rules::{Violation, Violations};

fn put_signed(out: &mut Bytes, number: i64) -> Result<(), NoMemory>
    ensures { OnOk result (out.new ≡ out.old ++ signed_decimal number) }
{
    out.extend(Buffer::new().format(number).as_bytes())
}

fn put_cell(out: &mut Bytes, violation: &Violation) -> Result<(), NoMemory>
    ensures { OnOk result (out.new ≡ out.old ++ cell_text violation.now) }
{
    out.extend(b" at ")?;
    put_signed(out, i64::from(violation.x))?;
    out.extend(b" ")?;
    put_signed(out, i64::from(violation.y))?;
    out.extend(b"\n")
}

fn put_violation(out: &mut Bytes, violation: &Violation) -> Result<(), NoMemory>
    ensures { OnOk result (out.new ≡ out.old ++ violation_line violation.now) }
{
    out.extend(b"violation ")?;
    out.extend(violation.rule.text())?;
    put_cell(out, violation)
}

/// Adds a line for each broken rule, in the order of the list: its number and the first cell that fails it, in grid
/// units.
pub fn put_violations(out: &mut Bytes, found: &Violations) -> Result<(), NoMemory>
    ensures { OnOk result (out.new ≡ out.old ++ violation_text found.now) }
{
    'lines: for violation in found.as_slice() {
        put_violation(out, violation)?;
    }
    Ok(())
}
