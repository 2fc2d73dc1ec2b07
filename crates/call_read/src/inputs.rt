ghost use Rattle.std.specs.Prelude.{◌≡◌, ◌≢◌, ◌≤◌, length, option_map, Some, Ok, Err, IfOk, IfErr, IsTrue};
ghost use Rattle.cell_io.specs.Desk.{OnlyReads};
ghost use Rattle.cell_num.specs.Names.{is_cell};
ghost use Rattle.tech_file.specs.Reading.{technology};
ghost use Rattle.call_read.specs.declared.refusal.Refusal.TheVariants as refused;
ghost use Rattle.call_read.specs.InputFiles.{technology_from, inputs_from, inputs_over};
ghost use Rattle.call_read.specs.Inputs.{inputs_in};
ghost use Rattle.call_read.specs.Read.{KeepsReads};
ghost use Rattle.call_read.specs.Reading.{MayCome};
ghost use Rattle.call_read.specs.Refusals.{as_refusal};

use crate::read::{Source, read_file};
use crate::refusal::Refusal;
use call_words::CellAsked;
use cell_io::Desk;
use cell_inputs::Inputs;
use cell_num::{MOST_BYTES, Name};
use finger_fold::fold;
use spice_net::read_cell;
use std::alloc::Global;
use tech_file::{Tech, read_tech};

fn technology_in(alloc: Global, bytes: &[u8]) -> Result<Tech, Refusal>
    requires { length bytes.now ≤ MOST_BYTES }
    ensures technology { IfOk result (λ tech. as_refusal refused.Tech (technology bytes.now) ≡ Ok tech) }
    ensures refusal { IfErr result
        (λ e. e ≢ refused.NoMemory → as_refusal refused.Tech (technology bytes.now) ≡ Err e) }
{
    Ok(read_tech(alloc, bytes)?)
}

fn read_tech_file<D: Desk>(alloc: Global, desk: &mut D, name: &str) -> Result<Tech, Refusal>
    ensures comes { MayCome (D.view desk.old) (D.view desk.new) (technology_from (Some name.now)) result }
    ensures quiet { KeepsReads result (D.view desk.old) (D.view desk.new) }
    ensures only { OnlyReads (D.view desk.old) (D.view desk.new) }
{
    let bytes = read_file(alloc, desk, Source::Tech(name))?;
    technology_in(alloc, bytes.as_slice())
}

/// The technology of a file, or the plain one.
pub fn read_technology<D: Desk>(
    alloc: Global,
    desk: &mut D,
    file: Option<&str>,
) -> Result<Tech, Refusal>
    ensures comes { MayCome (D.view desk.old) (D.view desk.new)
        (technology_from (option_map (λ name. name.now) file.entry)) result }
    ensures quiet { KeepsReads result (D.view desk.old) (D.view desk.new) }
    ensures only { OnlyReads (D.view desk.old) (D.view desk.new) }
{
    match file {
        Some(name) => read_tech_file(alloc, desk, name),
        None => Ok(Tech::plain(alloc)?),
    }
}

// The subcircuit of a name in the bytes of a SPICE file, and its fingers.
fn inputs_in(alloc: Global, bytes: &[u8], name: &Name, tech: Tech) -> Result<Inputs, Refusal>
    requires few { length bytes.now ≤ MOST_BYTES }
    requires cell { IsTrue (is_cell name.now) }
    ensures inputs { IfOk result (λ inputs. inputs_in bytes.now name.now tech ≡ Ok inputs) }
    ensures refusal { IfErr result (λ e. e ≢ refused.NoMemory → inputs_in bytes.now name.now tech ≡ Err e) }
{
    tech.show_limits();
    let cell = read_cell(alloc, bytes, name, &tech)?;
    let fingers = fold(alloc, &cell, &tech)?;
    Ok(Inputs {
        tech,
        cell,
        fingers,
    })
}

// The SPICE file, the subcircuit of the name in lower case, and its fingers.
fn inputs_over<D: Desk>(
    alloc: Global,
    desk: &mut D,
    asked: &CellAsked<'_>,
    tech: Tech,
) -> Result<Inputs, Refusal>
    ensures comes { MayCome (D.view desk.old) (D.view desk.new) (inputs_over asked.now tech) result }
    ensures quiet { KeepsReads result (D.view desk.old) (D.view desk.new) }
    ensures only { OnlyReads (D.view desk.old) (D.view desk.new) }
{
    let bytes = read_file(alloc, desk, Source::Spice(asked.spice))?;
    let name = asked.name(alloc)?;
    inputs_in(alloc, bytes.as_slice(), &name, tech)
}

/// The technology, then the SPICE file, the subcircuit of the name in lower case, and its fingers.
pub fn read_inputs<D: Desk>(
    alloc: Global,
    desk: &mut D,
    asked: &CellAsked<'_>,
) -> Result<Inputs, Refusal>
    ensures comes { MayCome (D.view desk.old) (D.view desk.new) (inputs_from asked.now) result }
    ensures quiet { KeepsReads result (D.view desk.old) (D.view desk.new) }
    ensures only { OnlyReads (D.view desk.old) (D.view desk.new) }
{
    let tech = read_technology(alloc, desk, asked.tech)?;
    inputs_over(alloc, desk, asked, tech)
}
