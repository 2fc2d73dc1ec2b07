ghost use Rattle.std.specs.Prelude.{Some, IfOk, option_map};
ghost use Rattle.cell_io.specs.Desk.{OnlyReads};
ghost use Rattle.call_read.specs.Read.{KeepsReads};
ghost use Rattle.call_words.specs.Words.{shown};
ghost use Rattle.call_work.specs.Commands.{WorksOn, gathered};
ghost use Rattle.call_work.specs.Kept.{MayKeep, WorksFor};
ghost use Rattle.call_work.specs.declared.commands.Material.TheVariants.{Read};

mod abstracts;
mod cell;
mod layout;
mod rows;

use crate::evidence::{check_by, make_from};
use crate::material::{
    CheckMaterial, FromMaterial, LowCheckMaterial, LowMaterial, MakeMaterial, PlanMaterial,
    RowMaterial,
};
use abstracts::for_agree;
use call_end::End;
use call_read::Refusal;
use call_words::{CellCount, Form};
use cell::{for_check, for_check_low, for_make, for_make_from, for_make_low, for_plan};
use cell_commands::{check_low, make, make_low, plan};
use cell_io::Desk;
use cell_num::NoMemory;
use layout::for_extract;
use layout_commands::{Compared, GdsCell, agree, extract, row};
use rows::for_row;
use std::alloc::Global;

/// What a command works on, as it is kept in memory.
#[derive(Drop)]
pub enum Material {
    /// A number of generated cells, which are read from no file.
    Bench(CellCount),
    Read(ReadMaterial),
}

/// What a command works on that reads files.
#[derive(Drop)]
pub enum ReadMaterial {
    Planning(PlanMaterial),
    Making(MakeMaterial),
    MakingFrom(FromMaterial),
    MakingLow(LowMaterial),
    Checking(CheckMaterial),
    CheckingLow(LowCheckMaterial),
    Extracting(GdsCell),
    Rowing(RowMaterial),
    Agreeing(Compared),
}

fn gather_form<D: Desk>(alloc: Global, desk: &mut D, form: Form<'_>) -> Result<Material, Refusal>
    ensures comes { MayKeep (D.view desk.old) (D.view desk.new) (gathered (Some (shown form.entry))) result }
    ensures quiet { KeepsReads result (D.view desk.old) (D.view desk.new) }
    ensures only { OnlyReads (D.view desk.old) (D.view desk.new) }
{
    match form {
        Form::Plan { cell, evidence } => for_plan(alloc, desk, &cell, evidence),
        Form::Make {
            cell,
            out,
            style,
            evidence,
        } => for_make(alloc, desk, &cell, out, style, evidence),
        Form::MakeFrom {
            cell,
            out,
            style,
            file,
            evidence,
        } => for_make_from(alloc, desk, &cell, out, style, file, evidence),
        Form::MakeLow {
            cell,
            out,
            style,
            evidence,
        } => for_make_low(alloc, desk, &cell, out, style, evidence),
        Form::Check { cell, file, by } => for_check(alloc, desk, &cell, file, by),
        Form::CheckLow { cell, file } => for_check_low(alloc, desk, &cell, file),
        Form::Extract {
            tech,
            gds,
            cell,
            rules,
        } => for_extract(alloc, desk, tech, gds, cell, rules),
        Form::Bench { number } => Ok(Material::Bench(number)),
        Form::Row { row, out } => for_row(alloc, desk, &row, out),
        Form::Agree {
            tech,
            gds,
            lef,
            cell,
        } => for_agree(alloc, desk, tech, gds, lef, cell),
    }
}

/// Reads what the form asks for, up to the first step that refuses.
pub fn gather<D: Desk>(
    alloc: Global,
    desk: &mut D,
    form: Option<Form<'_>>,
) -> Result<Material, Refusal>
    ensures comes { MayKeep (D.view desk.old) (D.view desk.new) (gathered (option_map shown form.entry)) result }
    ensures quiet { KeepsReads result (D.view desk.old) (D.view desk.new) }
    ensures only { OnlyReads (D.view desk.old) (D.view desk.new) }
{
    match form {
        Some(form) => gather_form(alloc, desk, form),
        None => Err(Refusal::Words),
    }
}

fn work_on(alloc: Global, material: &ReadMaterial) -> Result<End, NoMemory>
    ensures { IfOk result (WorksOn material.now) }
{
    match material {
        ReadMaterial::Planning(of) => plan(alloc, &of.inputs, of.evidence),
        ReadMaterial::Making(of) => make(alloc, &of.inputs, &of.stem, of.style, of.evidence),
        ReadMaterial::MakingFrom(of) => make_from(alloc, of),
        ReadMaterial::MakingLow(of) => make_low(alloc, &of.inputs, &of.stem, of.style, of.evidence),
        ReadMaterial::Checking(of) => check_by(alloc, &of.inputs, &of.file),
        ReadMaterial::CheckingLow(of) => check_low(alloc, &of.inputs, of.bytes.as_slice()),
        ReadMaterial::Extracting(cell) => extract(alloc, cell),
        ReadMaterial::Rowing(of) => row(alloc, &of.inputs, &of.stem),
        ReadMaterial::Agreeing(both) => agree(alloc, both),
    }
}

/// Does the work of a command on what it read. It reads, makes and says nothing.
pub fn work(alloc: Global, material: &ReadMaterial) -> Result<End, NoMemory>
    ensures { IfOk result (WorksFor (Read material.now)) }
{
    work_on(alloc, material)
}
