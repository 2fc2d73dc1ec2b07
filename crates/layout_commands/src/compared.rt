ghost use Rattle.std.specs.Prelude.{option_map};
ghost use Rattle.cell_io.specs.Desk.{OnlyReads};
ghost use Rattle.call_read.specs.Read.{KeepsReads};
ghost use Rattle.call_read.specs.Reading.{MayCome};
ghost use Rattle.layout_commands.specs.Agree.{comparing, comparing_over, comparing_with};

use box_geom::Shapes;
use call_read::{Refusal, read_macro, read_shapes, read_technology};
use cell_io::Desk;
use cell_num::{Name, copy};
use lef_read::Macro;
use std::alloc::Global;
use tech_file::Tech;

/// What a cell of a GDSII file draws, and the macro of its name in a LEF file, both in grid units.
#[derive(Drop)]
pub struct Compared {
    pub shapes: Shapes,
    pub cell: Macro,
}

fn with_macro<D: Desk>(
    alloc: Global,
    desk: &mut D,
    tech: &Tech,
    lef: &str,
    name: &Name,
    shapes: Shapes,
) -> Result<Compared, Refusal>
    ensures comes { MayCome (D.view desk.old) (D.view desk.new)
        (comparing_with lef.now name.now tech.now shapes) result }
    ensures quiet { KeepsReads result (D.view desk.old) (D.view desk.new) }
    ensures only { OnlyReads (D.view desk.old) (D.view desk.new) }
{
    let cell = read_macro(alloc, desk, lef, name, tech)?;
    Ok(Compared { shapes, cell })
}

fn read_over<D: Desk>(
    alloc: Global,
    desk: &mut D,
    tech: &Tech,
    gds: &str,
    lef: &str,
    name: &Name,
) -> Result<Compared, Refusal>
    ensures comes { MayCome (D.view desk.old) (D.view desk.new)
        (comparing_over gds.now lef.now name.now tech.now) result }
    ensures quiet { KeepsReads result (D.view desk.old) (D.view desk.new) }
    ensures only { OnlyReads (D.view desk.old) (D.view desk.new) }
{
    let shapes = read_shapes(alloc, desk, gds, name, tech)?;
    with_macro(alloc, desk, tech, lef, name, shapes)
}

/// Reads the technology, the plain one for None, then the cell of that name from a GDSII file, and then its macro from
/// a LEF file.
pub fn read_compared<D: Desk>(
    alloc: Global,
    desk: &mut D,
    tech: Option<&str>,
    gds: &str,
    lef: &str,
    cell: &str,
) -> Result<Compared, Refusal>
    ensures comes { MayCome (D.view desk.old) (D.view desk.new)
        (comparing (option_map (λ name. name.now) tech.entry) gds.now lef.now cell.now) result }
    ensures quiet { KeepsReads result (D.view desk.old) (D.view desk.new) }
    ensures only { OnlyReads (D.view desk.old) (D.view desk.new) }
{
    let name = copy(alloc, cell.as_bytes())?;
    let tech = read_technology(alloc, desk, tech)?;
    read_over(alloc, desk, &tech, gds, lef, &name)
}
