ghost use Rattle.std.specs.Prelude.{◌≡◌, ◌≢◌, ◌++◌, IfOk, OnOk};
ghost use Rattle.lef_read.specs.declared.differ.Differ.TheVariants as differ;
ghost use Rattle.layout_commands.specs.declared.agreement.AgreeAnswer.TheVariants as answer;
ghost use Rattle.layout_commands.specs.Agree.{AgreesTo, IsAgreeAnswer, agree_end, agreed_text, all_ports};
ghost use Rattle.layout_commands.specs.Agree.{counts_text, differ_status};

use crate::compared::Compared;
use call_end::{End, Status};
use cell_num::{Bytes, NoMemory, put_count, put_text};
use cell_report::put_differ;
use lef_read::{Differ, LefPin, LefRectList, Macro};
use std::alloc::Global;

/// What comparing a macro with a drawing resulted in.
#[derive(Drop)]
pub enum AgreeAnswer {
    Agreed,
    /// The first difference.
    Differs(Differ),
}

fn differs(fault: Differ) -> Result<AgreeAnswer, NoMemory>
    ensures { IfOk result (λ told. (fault ≢ differ.NoMemory) × (told ≡ answer.Differs fault)) }
{
    match fault {
        Differ::NoMemory => Err(NoMemory),
        fault => Ok(AgreeAnswer::Differs(fault)),
    }
}

#[tactic(auto, using(crate::proofs::Agreed::differs_answers))]
fn answer_of(alloc: Global, compared: &Compared) -> Result<AgreeAnswer, NoMemory>
    ensures { IfOk result (IsAgreeAnswer compared.now) }
{
    match lef_read::agree(alloc, &compared.shapes, &compared.cell) {
        Ok(()) => Ok(AgreeAnswer::Agreed),
        Err(fault) => differs(fault),
    }
}

fn status_of(fault: &Differ) -> Status
    ensures { result ≡ differ_status fault.now }
{
    match fault {
        Differ::Extract(_) => Status::Layout,
        Differ::NoLabel { .. } | Differ::Port { .. } | Differ::Bare { .. } | Differ::NoMemory =>
            Status::Disagree,
    }
}

// The rectangles of all ports. Their number fits where that of a sum need not.
fn ports(alloc: Global, pins: &[LefPin]) -> Result<LefRectList, NoMemory>
    ensures { IfOk result (λ ports. ports ≡ all_ports pins.now) }
{
    let mut ports = LefRectList::new(alloc);
    for pin in pins {
        ports.extend(pin.ports.as_slice())?;
    }
    Ok(ports)
}

fn put_counts(
    out: &mut Bytes,
    pins: usize,
    ports: usize,
    obstructions: usize,
) -> Result<(), NoMemory>
    ensures { OnOk result (out.new ≡ out.old ++ counts_text pins ports obstructions) }
{
    put_count(out, b"pins ", pins as u64)?;
    put_count(out, b"ports ", ports as u64)?;
    put_count(out, b"obstructions ", obstructions as u64)
}

fn put_agreed(alloc: Global, out: &mut Bytes, cell: &Macro) -> Result<(), NoMemory>
    ensures { OnOk result (out.new ≡ out.old ++ agreed_text cell.now) }
{
    let ports = ports(alloc, cell.pins.as_slice())?;
    put_text(out, b"cell ", cell.name.as_slice())?;
    put_counts(out, cell.pins.len(), ports.len(), cell.obstructions.len())
}

fn end_of(alloc: Global, cell: &Macro, answer: &AgreeAnswer) -> Result<End, NoMemory>
    ensures { IfOk result (λ end. end ≡ agree_end cell.now answer.now) }
{
    match answer {
        AgreeAnswer::Agreed => {
            let mut report = Status::Done.report(alloc)?;
            put_agreed(alloc, &mut report, cell)?;
            Ok(End::says(alloc, Status::Done, report))
        }
        AgreeAnswer::Differs(fault) => {
            let status = status_of(fault);
            let mut report = status.report(alloc)?;
            put_differ(&mut report, fault)?;
            Ok(End::says(alloc, status, report))
        }
    }
}

/// Whether a macro agrees with a drawing, or the first difference.
pub fn agree(alloc: Global, compared: &Compared) -> Result<End, NoMemory>
    ensures { IfOk result (AgreesTo compared.now) }
{
    let answer = answer_of(alloc, compared)?;
    end_of(alloc, &compared.cell, &answer)
}
