// What the commands on a cell of a SPICE file read.
ghost use Rattle.std.specs.Prelude.{Some};
ghost use Rattle.cell_io.specs.Desk.{OnlyReads};
ghost use Rattle.call_read.specs.Read.{KeepsReads};
ghost use Rattle.call_words.specs.Words.{Plan, Make, MakeFrom, MakeLow, Check, CheckLow};
ghost use Rattle.call_work.specs.Commands.{gathered};
ghost use Rattle.call_work.specs.Kept.{MayKeep};

use crate::commands::{Material, ReadMaterial};
use crate::evidence::read_with_evidence;
use crate::material::{
    CheckMaterial, FromMaterial, LowCheckMaterial, LowMaterial, MakeMaterial, PlanMaterial,
};
use call_end::Stem;
use call_read::{Refusal, Source, read_file, read_inputs};
use call_words::{CellAsked, Evidence};
use cell_inputs::Style;
use cell_io::Desk;
use std::alloc::Global;

pub(crate) fn for_plan<D: Desk>(
    alloc: Global,
    desk: &mut D,
    asked: &CellAsked<'_>,
    evidence: Evidence,
) -> Result<Material, Refusal>
    ensures comes { MayKeep (D.view desk.old) (D.view desk.new) (gathered (Some (Plan asked.now evidence))) result }
    ensures quiet { KeepsReads result (D.view desk.old) (D.view desk.new) }
    ensures only { OnlyReads (D.view desk.old) (D.view desk.new) }
{
    let inputs = read_inputs(alloc, desk, asked)?;
    Ok(Material::Read(ReadMaterial::Planning(PlanMaterial { inputs, evidence })))
}

pub(crate) fn for_make<D: Desk>(
    alloc: Global,
    desk: &mut D,
    asked: &CellAsked<'_>,
    out: &str,
    style: Style,
    evidence: Evidence,
) -> Result<Material, Refusal>
    ensures comes { MayKeep (D.view desk.old) (D.view desk.new)
        (gathered (Some (Make asked.now out.now style evidence))) result }
    ensures quiet { KeepsReads result (D.view desk.old) (D.view desk.new) }
    ensures only { OnlyReads (D.view desk.old) (D.view desk.new) }
{
    let stem = Stem::new(alloc, out)?;
    let inputs = read_inputs(alloc, desk, asked)?;
    Ok(Material::Read(ReadMaterial::Making(MakeMaterial {
        inputs,
        stem,
        style,
        evidence,
    })))
}

/// The inputs, and then the file whose row is to be drawn.
pub(crate) fn for_make_from<D: Desk>(
    alloc: Global,
    desk: &mut D,
    asked: &CellAsked<'_>,
    out: &str,
    style: Style,
    file: &str,
    evidence: Evidence,
) -> Result<Material, Refusal>
    ensures comes { MayKeep (D.view desk.old) (D.view desk.new)
        (gathered (Some (MakeFrom asked.now out.now style file.now evidence))) result }
    ensures quiet { KeepsReads result (D.view desk.old) (D.view desk.new) }
    ensures only { OnlyReads (D.view desk.old) (D.view desk.new) }
{
    let stem = Stem::new(alloc, out)?;
    let read = read_with_evidence(alloc, desk, asked, file, evidence)?;
    let CheckMaterial { inputs, file } = read;
    Ok(Material::Read(ReadMaterial::MakingFrom(FromMaterial {
        inputs,
        file,
        stem,
        style,
    })))
}

pub(crate) fn for_make_low<D: Desk>(
    alloc: Global,
    desk: &mut D,
    asked: &CellAsked<'_>,
    out: &str,
    style: Style,
    evidence: Evidence,
) -> Result<Material, Refusal>
    ensures comes { MayKeep (D.view desk.old) (D.view desk.new)
        (gathered (Some (MakeLow asked.now out.now style evidence))) result }
    ensures quiet { KeepsReads result (D.view desk.old) (D.view desk.new) }
    ensures only { OnlyReads (D.view desk.old) (D.view desk.new) }
{
    let stem = Stem::new(alloc, out)?;
    let inputs = read_inputs(alloc, desk, asked)?;
    Ok(Material::Read(ReadMaterial::MakingLow(LowMaterial {
        inputs,
        stem,
        style,
        evidence,
    })))
}

/// The inputs, and then the file that is checked.
pub(crate) fn for_check<D: Desk>(
    alloc: Global,
    desk: &mut D,
    asked: &CellAsked<'_>,
    file: &str,
    evidence: Evidence,
) -> Result<Material, Refusal>
    ensures comes { MayKeep (D.view desk.old) (D.view desk.new)
        (gathered (Some (Check asked.now file.now evidence))) result }
    ensures quiet { KeepsReads result (D.view desk.old) (D.view desk.new) }
    ensures only { OnlyReads (D.view desk.old) (D.view desk.new) }
{
    let read = read_with_evidence(alloc, desk, asked, file, evidence)?;
    Ok(Material::Read(ReadMaterial::Checking(read)))
}

/// The inputs, and then the certificate of the tracks that is checked.
pub(crate) fn for_check_low<D: Desk>(
    alloc: Global,
    desk: &mut D,
    asked: &CellAsked<'_>,
    file: &str,
) -> Result<Material, Refusal>
    ensures comes { MayKeep (D.view desk.old) (D.view desk.new) (gathered (Some (CheckLow asked.now file.now))) result }
    ensures quiet { KeepsReads result (D.view desk.old) (D.view desk.new) }
    ensures only { OnlyReads (D.view desk.old) (D.view desk.new) }
{
    let inputs = read_inputs(alloc, desk, asked)?;
    let bytes = read_file(alloc, desk, Source::Tracks(file))?;
    Ok(Material::Read(ReadMaterial::CheckingLow(LowCheckMaterial { inputs, bytes })))
}
