ghost use Rattle.std.specs.Prelude.{◌≡◌, ◌≢◌, ◌≤◌, length, Ok, Err, IfOk, IfErr};
ghost use Rattle.cell_inputs.specs.Inputs.{unit_nm};
ghost use Rattle.cell_io.specs.Desk.{OnlyReads};
ghost use Rattle.lef_read.specs.Macros.{macro_in};
ghost use Rattle.call_read.specs.declared.refusal.Refusal.TheVariants as refused;
ghost use Rattle.call_read.specs.InputFiles.{macro_from};
ghost use Rattle.call_read.specs.Read.{KeepsReads};
ghost use Rattle.call_read.specs.Reading.{MayCome};
ghost use Rattle.call_read.specs.Refusals.{as_refusal};

use crate::read::{Source, read_file};
use crate::refusal::Refusal;
use cell_io::Desk;
use cell_num::{MOST_BYTES, Name};
use lef_read::Macro;
use std::alloc::Global;
use tech_file::Tech;

fn macro_in(alloc: Global, bytes: &[u8], name: &Name, tech: &Tech) -> Result<Macro, Refusal>
    requires { length bytes.now ≤ MOST_BYTES }
    ensures cell { IfOk result (λ cell. as_refusal refused.Lef (macro_in bytes.now name.now (unit_nm tech.now))
        ≡ Ok cell) }
    ensures refusal { IfErr result (λ e. e ≢ refused.NoMemory
        → as_refusal refused.Lef (macro_in bytes.now name.now (unit_nm tech.now)) ≡ Err e) }
{
    Ok(lef_read::read_macro(alloc, bytes, name, tech.unit_nm())?)
}

/// The first macro of that name in a LEF file. The bytes of the file are kept no longer.
pub fn read_macro<D: Desk>(
    alloc: Global,
    desk: &mut D,
    lef: &str,
    cell: &Name,
    tech: &Tech,
) -> Result<Macro, Refusal>
    ensures comes { MayCome (D.view desk.old) (D.view desk.new) (macro_from lef.now cell.now tech.now) result }
    ensures quiet { KeepsReads result (D.view desk.old) (D.view desk.new) }
    ensures only { OnlyReads (D.view desk.old) (D.view desk.new) }
{
    let bytes = read_file(alloc, desk, Source::Lef(lef))?;
    macro_in(alloc, bytes.as_slice(), cell, tech)
}
