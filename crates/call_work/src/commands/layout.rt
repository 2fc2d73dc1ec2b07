// What a command on a layout reads.
ghost use Rattle.std.specs.Prelude.{Some, option_map};
ghost use Rattle.cell_io.specs.Desk.{OnlyReads};
ghost use Rattle.call_read.specs.Read.{KeepsReads};
ghost use Rattle.call_words.specs.Words.{Extract};
ghost use Rattle.call_work.specs.Commands.{gathered};
ghost use Rattle.call_work.specs.Kept.{MayKeep};

use crate::commands::{Material, ReadMaterial};
use call_read::Refusal;
use cell_io::Desk;
use layout_commands::read_gds_cell;
use scmos_rules::Deck;
use std::alloc::Global;

pub(crate) fn for_extract<D: Desk>(
    alloc: Global,
    desk: &mut D,
    tech: Option<&str>,
    gds: &str,
    cell: &str,
    rules: Deck,
) -> Result<Material, Refusal>
    ensures comes { MayKeep (D.view desk.old) (D.view desk.new)
        (gathered (Some (Extract (option_map (λ name. name.now) tech.entry) gds.now cell.now rules))) result }
    ensures quiet { KeepsReads result (D.view desk.old) (D.view desk.new) }
    ensures only { OnlyReads (D.view desk.old) (D.view desk.new) }
{
    let drawn = read_gds_cell(alloc, desk, tech, gds, cell, rules)?;
    Ok(Material::Read(ReadMaterial::Extracting(drawn)))
}
