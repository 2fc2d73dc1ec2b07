// What a command on a layout and its abstract reads.
ghost use Rattle.std.specs.Prelude.{Some, option_map};
ghost use Rattle.cell_io.specs.Desk.{OnlyReads};
ghost use Rattle.call_read.specs.Read.{KeepsReads};
ghost use Rattle.call_words.specs.Words.{Agree};
ghost use Rattle.call_work.specs.Commands.{gathered};
ghost use Rattle.call_work.specs.Kept.{MayKeep};

use crate::commands::{Material, ReadMaterial};
use call_read::Refusal;
use cell_io::Desk;
use layout_commands::read_compared;
use std::alloc::Global;

pub(crate) fn for_agree<D: Desk>(
    alloc: Global,
    desk: &mut D,
    tech: Option<&str>,
    gds: &str,
    lef: &str,
    cell: &str,
) -> Result<Material, Refusal>
    ensures comes { MayKeep (D.view desk.old) (D.view desk.new)
        (gathered (Some (Agree (option_map (λ name. name.now) tech.entry) gds.now lef.now cell.now))) result }
    ensures quiet { KeepsReads result (D.view desk.old) (D.view desk.new) }
    ensures only { OnlyReads (D.view desk.old) (D.view desk.new) }
{
    let both = read_compared(alloc, desk, tech, gds, lef, cell)?;
    Ok(Material::Read(ReadMaterial::Agreeing(both)))
}
