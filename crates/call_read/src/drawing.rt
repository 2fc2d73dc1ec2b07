ghost use Rattle.std.specs.Prelude.{◌≡◌, ◌≢◌, ◌≤◌, length, Ok, Err, IfOk, IfErr};
ghost use Rattle.cell_io.specs.Desk.{OnlyReads};
ghost use Rattle.gds_read.specs.Decoding.{decoded};
ghost use Rattle.call_read.specs.declared.refusal.Refusal.TheVariants as refused;
ghost use Rattle.call_read.specs.InputFiles.{shapes_from};
ghost use Rattle.call_read.specs.Read.{KeepsReads};
ghost use Rattle.call_read.specs.Reading.{MayCome};
ghost use Rattle.call_read.specs.Refusals.{as_refusal};

use crate::read::{Source, read_file};
use crate::refusal::Refusal;
use box_geom::Shapes;
use cell_io::Desk;
use cell_num::{MOST_BYTES, Name};
use gds_read::read_cell;
use std::alloc::Global;
use tech_file::Tech;

#[tactic(auto, using(crate::proofs::Results::gds_refused))]
fn shapes_in(alloc: Global, bytes: &[u8], name: &Name, tech: &Tech) -> Result<Shapes, Refusal>
    requires { length bytes.now ≤ MOST_BYTES }
    ensures shapes { IfOk result (λ shapes. as_refusal refused.Gds (decoded bytes.now name.now tech.now.lambda_nm)
        ≡ Ok shapes) }
    ensures refusal { IfErr result (λ e. e ≢ refused.NoMemory
        → as_refusal refused.Gds (decoded bytes.now name.now tech.now.lambda_nm) ≡ Err e) }
{
    tech.show_limits();
    Ok(read_cell(alloc, bytes, name, tech.lambda_nm)?)
}

/// What a GDSII file draws as the cell of that name. Its bytes are kept no longer.
pub fn read_shapes<D: Desk>(
    alloc: Global,
    desk: &mut D,
    gds: &str,
    cell: &Name,
    tech: &Tech,
) -> Result<Shapes, Refusal>
    ensures comes { MayCome (D.view desk.old) (D.view desk.new) (shapes_from gds.now cell.now tech.now) result }
    ensures quiet { KeepsReads result (D.view desk.old) (D.view desk.new) }
    ensures only { OnlyReads (D.view desk.old) (D.view desk.new) }
{
    let bytes = read_file(alloc, desk, Source::Gds(gds))?;
    shapes_in(alloc, bytes.as_slice(), cell, tech)
}
