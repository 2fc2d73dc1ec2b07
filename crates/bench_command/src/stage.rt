ghost use Rattle.std.specs.Prelude.{◌≡◌, IfOk};
ghost use Rattle.bench_command.specs.Cells.{stage_of, stages_of};

use crate::draws::Draws;
use cell_num::{List, NoMemory};
use std::alloc::Global;

/// A gate with one output.
#[derive(Clone, Copy, Debug, PartialEq, Eq)]
pub enum Stage {
    Inverter,
    Nand2,
    Nor2,
}

/// The stages of a cell, from its input to its output.
pub type StageList = List<Stage>;

fn stage_drawn(draw: u32) -> Stage
    ensures { result ≡ stage_of draw }
{
    match draw % 3 {
        0 => Stage::Inverter,
        1 => Stage::Nand2,
        _ => Stage::Nor2,
    }
}

/// The stages of the generated cell of that number.
#[tactic(auto, using(crate::proofs::Drawn::state_more, crate::proofs::Drawn::stages_more))]
pub fn stages(alloc: Global, cell: u32) -> Result<StageList, NoMemory>
    ensures { IfOk result (λ stages. stages ≡ stages_of cell) }
{
    let mut draws = Draws { state: cell };
    let count = 2 + draws.draw() % 4;
    let mut stages = StageList::new(alloc);
    'stages: for _ in 0..count {
        stages.push(stage_drawn(draws.draw()))?;
    }
    Ok(stages)
}
