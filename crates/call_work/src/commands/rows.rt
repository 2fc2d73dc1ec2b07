// What a command on a row of cells reads.
ghost use Rattle.std.specs.Prelude.{Some};
ghost use Rattle.cell_io.specs.Desk.{OnlyReads};
ghost use Rattle.call_read.specs.Read.{KeepsReads};
ghost use Rattle.call_words.specs.Words.{Row};
ghost use Rattle.call_work.specs.Commands.{gathered};
ghost use Rattle.call_work.specs.Kept.{MayKeep};

use crate::commands::{Material, ReadMaterial};
use crate::material::RowMaterial;
use call_end::Stem;
use call_read::Refusal;
use call_words::RowAsked;
use cell_io::Desk;
use layout_commands::read_row;
use std::alloc::Global;

pub(crate) fn for_row<D: Desk>(
    alloc: Global,
    desk: &mut D,
    asked: &RowAsked<'_>,
    out: &str,
) -> Result<Material, Refusal>
    ensures comes { MayKeep (D.view desk.old) (D.view desk.new) (gathered (Some (Row asked.now out.now))) result }
    ensures quiet { KeepsReads result (D.view desk.old) (D.view desk.new) }
    ensures only { OnlyReads (D.view desk.old) (D.view desk.new) }
{
    let stem = Stem::new(alloc, out)?;
    let inputs = read_row(alloc, desk, asked)?;
    Ok(Material::Read(ReadMaterial::Rowing(RowMaterial { inputs, stem })))
}
