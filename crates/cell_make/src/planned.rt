ghost use Rattle.std.specs.Prelude.{IfOk};
ghost use Rattle.cell_make.specs.Searched.{IsPlanned};

use cell_inputs::Inputs;
use cell_num::NoMemory;
use log_output::KeptLog;
use row_model::Arrangement;
use row_search::{StopKept, search_kept};
use row_state::{COMPONENT_LOG, Component};
use std::alloc::Global;

/// What planning a cell results in.
#[derive(Drop)]
pub enum Planned {
    /// The first least row, and the log of its search.
    Found { row: Arrangement, log: KeptLog },
    /// The search spent its budget. The log proves that each row has at least `proved` gaps.
    Unfinished { log: KeptLog, proved: u32 },
}

impl Planned {
    /// The first least row of the fingers with its log, or the log of a search that spent its budget.
    pub fn of(alloc: Global, inputs: &Inputs) -> Result<Planned, NoMemory>
        ensures { IfOk result (IsPlanned inputs.now) }
    {
        inputs.show_limits();
        match search_kept(alloc, &inputs.fingers, &Component, inputs.budget()) {
            Ok(found) => {
                let log = KeptLog::with_row(COMPONENT_LOG, found.kept, found.best);
                Ok(Planned::Found {
                    row: found.row,
                    log,
                })
            }
            Err(StopKept::Unfinished { kept, proved }) => {
                let log = KeptLog::without_row(COMPONENT_LOG, kept);
                Ok(Planned::Unfinished { log, proved })
            }
            Err(StopKept::NoMemory) => Err(NoMemory),
        }
    }
}
