ghost use Rattle.std.specs.Prelude.{◌≡◌, ◌++◌, IfOk, OnOk};
ghost use Rattle.bench_command.specs.Cells.{n_transistor, p_transistor, stage_transistors, transistors_of};

use crate::net::first_input;
use crate::{Net, Stage};
use cell_num::{List, NoMemory, Row};
use std::alloc::Global;

/// A transistor of a generated cell, by its nets.
#[derive(Clone, Copy, Debug, PartialEq, Eq)]
pub struct Transistor {
    pub row: Row,
    pub drain: Net,
    pub gate: Net,
    pub source: Net,
}

pub type TransistorList = List<Transistor>;

fn p(drain: Net, gate: Net, source: Net) -> Transistor
    ensures { result ≡ p_transistor drain gate source }
{
    Transistor {
        row: Row::P,
        drain,
        gate,
        source,
    }
}

fn n(drain: Net, gate: Net, source: Net) -> Transistor
    ensures { result ≡ n_transistor drain gate source }
{
    Transistor {
        row: Row::N,
        drain,
        gate,
        source,
    }
}

fn add_stage(found: &mut TransistorList, place: usize, stage: Stage) -> Result<(), NoMemory>
    ensures { OnOk result (found.new ≡ found.old ++ stage_transistors (place, stage)) }
{
    let (vdd, gnd) = (Net::Vdd, Net::Gnd);
    let (a, b) = (first_input(place), Net::Second(place));
    let (out, inner) = (Net::Output(place), Net::Inner(place));
    match stage {
        Stage::Inverter => found.extend(&[p(out, a, vdd), n(out, a, gnd)]),
        Stage::Nand2 => found.extend(&[
            p(out, a, vdd),
            p(out, b, vdd),
            n(out, a, inner),
            n(inner, b, gnd),
        ]),
        Stage::Nor2 => found.extend(&[
            p(inner, a, vdd),
            p(out, b, inner),
            n(out, a, gnd),
            n(out, b, gnd),
        ]),
    }
}

/// The transistors of a chain of stages, stage by stage.
pub fn transistors(alloc: Global, stages: &[Stage]) -> Result<TransistorList, NoMemory>
    ensures { IfOk result (λ found. found ≡ transistors_of stages.now) }
{
    let mut found = TransistorList::new(alloc);
    'stages: for (place, stage) in stages.iter().enumerate() {
        add_stage(&mut found, place, *stage)?;
    }
    Ok(found)
}
