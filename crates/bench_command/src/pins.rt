// The pins of a chain of stages.
ghost use Rattle.std.specs.Prelude.{◌≡◌, ◌++◌, IfOk, OnOk};
ghost use Rattle.std.specs.List.{enumerate_from, flat_map};
ghost use Rattle.bench_command.specs.Cells.{second_inputs, pins_of};

use crate::{Net, NetList, Stage};
use cell_num::NoMemory;
use std::alloc::Global;

fn add_second_input(pins: &mut NetList, place: usize, stage: Stage) -> Result<(), NoMemory>
    ensures { OnOk result (pins.new ≡ pins.old ++ second_inputs (place, stage)) }
{
    match stage {
        Stage::Inverter => Ok(()),
        Stage::Nand2 | Stage::Nor2 => pins.push(Net::Second(place)),
    }
}

fn add_second_inputs(pins: &mut NetList, stages: &[Stage]) -> Result<(), NoMemory>
    ensures { OnOk result (pins.new ≡ pins.old ++ flat_map second_inputs (enumerate_from 0 stages.now)) }
{
    'stages: for (place, stage) in stages.iter().enumerate() {
        add_second_input(pins, place, *stage)?;
    }
    Ok(())
}

/// The input, the second inputs of the stages, the last output and the rails.
pub fn pins(alloc: Global, stages: &[Stage]) -> Result<NetList, NoMemory>
    ensures { IfOk result (λ pins. pins ≡ pins_of stages.now) }
{
    let mut pins = NetList::new(alloc);
    pins.push(Net::Input)?;
    add_second_inputs(&mut pins, stages)?;
    pins.push(Net::Output(stages.len().saturating_sub(1)))?;
    pins.push(Net::Vdd)?;
    pins.push(Net::Gnd)?;
    Ok(pins)
}
