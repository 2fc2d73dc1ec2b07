ghost use Rattle.cell_io.specs.Desk.{OnlyReads};
ghost use Rattle.call_read.specs.Read.{KeepsReads};
ghost use Rattle.call_read.specs.Reading.{MayCome};
ghost use Rattle.layout_commands.specs.Row.{rowing, rowing_over};

use call_read::{Refusal, Source, read_file, read_technology};
use call_words::RowAsked;
use cell_io::Desk;
use cell_make::RowInputs;
use std::alloc::Global;
use tech_file::Tech;

fn read_over<D: Desk>(
    alloc: Global,
    desk: &mut D,
    asked: &RowAsked<'_>,
    tech: Tech,
) -> Result<RowInputs, Refusal>
    ensures comes { MayCome (D.view desk.old) (D.view desk.new) (rowing_over asked.now tech) result }
    ensures quiet { KeepsReads result (D.view desk.old) (D.view desk.new) }
    ensures only { OnlyReads (D.view desk.old) (D.view desk.new) }
{
    tech.show_limits();
    let spice = read_file(alloc, desk, Source::Spice(asked.spice))?;
    let top = asked.name(alloc)?;
    let names = asked.names(alloc)?;
    Ok(RowInputs {
        tech,
        spice: spice.into_bytes(),
        top,
        names,
        choice: asked.choice,
    })
}

/// Reads the technology, the plain one for None, and then the SPICE file.
pub fn read_row<D: Desk>(
    alloc: Global,
    desk: &mut D,
    asked: &RowAsked<'_>,
) -> Result<RowInputs, Refusal>
    ensures comes { MayCome (D.view desk.old) (D.view desk.new) (rowing asked.now) result }
    ensures quiet { KeepsReads result (D.view desk.old) (D.view desk.new) }
    ensures only { OnlyReads (D.view desk.old) (D.view desk.new) }
{
    let tech = read_technology(alloc, desk, asked.tech)?;
    read_over(alloc, desk, asked, tech)
}
