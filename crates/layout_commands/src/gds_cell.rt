ghost use Rattle.std.specs.Prelude.{option_map};
ghost use Rattle.cell_io.specs.Desk.{OnlyReads};
ghost use Rattle.call_read.specs.Read.{KeepsReads};
ghost use Rattle.call_read.specs.Reading.{MayCome};
ghost use Rattle.layout_commands.specs.Extract.{extracting, extracting_over};

use box_geom::Shapes;
use call_read::{Refusal, read_shapes, read_technology};
use cell_io::Desk;
use cell_num::{Name, copy};
use scmos_rules::Deck;
use std::alloc::Global;
use tech_file::Tech;

/// A cell of a GDSII file: its name as it is written there, what it draws, and the deck that it is checked by.
#[derive(Drop)]
pub struct GdsCell {
    pub name: Name,
    pub shapes: Shapes,
    pub rules: Deck,
}

fn read_cell_over<D: Desk>(
    alloc: Global,
    desk: &mut D,
    tech: &Tech,
    gds: &str,
    cell: &str,
    rules: Deck,
) -> Result<GdsCell, Refusal>
    ensures comes { MayCome (D.view desk.old) (D.view desk.new)
        (extracting_over gds.now cell.now rules tech.now) result }
    ensures quiet { KeepsReads result (D.view desk.old) (D.view desk.new) }
    ensures only { OnlyReads (D.view desk.old) (D.view desk.new) }
{
    let name = copy(alloc, cell.as_bytes())?;
    let shapes = read_shapes(alloc, desk, gds, &name, tech)?;
    Ok(GdsCell {
        name,
        shapes,
        rules,
    })
}

/// Reads the technology, the plain one for None, and then the cell of that name from a GDSII file.
pub fn read_gds_cell<D: Desk>(
    alloc: Global,
    desk: &mut D,
    tech: Option<&str>,
    gds: &str,
    cell: &str,
    rules: Deck,
) -> Result<GdsCell, Refusal>
    ensures comes { MayCome (D.view desk.old) (D.view desk.new)
        (extracting (option_map (λ name. name.now) tech.entry) gds.now cell.now rules) result }
    ensures quiet { KeepsReads result (D.view desk.old) (D.view desk.new) }
    ensures only { OnlyReads (D.view desk.old) (D.view desk.new) }
{
    let tech = read_technology(alloc, desk, tech)?;
    read_cell_over(alloc, desk, &tech, gds, cell, rules)
}
