ghost use Rattle.std.specs.Prelude.{◌≡◌, IfOk};
ghost use Rattle.cell_make.specs.Extent.{IsOnItsLines, LiesInFrame};
ghost use Rattle.cell_make.specs.Making.{CanBeWritten, ComesTo};
ghost use Rattle.cell_make.specs.WithLog.{with_log};

use crate::draw_outcome::DrawOutcome;
use crate::drawn::Drawn;
use crate::planned::Planned;
use cell_inputs::{Inputs, Style};
use cell_num::NoMemory;
use channel_route::{Ring, Routing};
use log_output::KeptLog;
use row_place::Placement;
use std::alloc::Global;

/// What making a cell results in.
#[derive(Drop)]
pub enum Outcome {
    /// The first least row on its lines, drawn.
    Made {
        placement: Placement,
        log: KeptLog,
        routing: Routing,
        drawn: Drawn,
    },
    /// Nets of that row, or parts of them, are above each other in a cycle.
    Cyclic {
        placement: Placement,
        log: KeptLog,
        ring: Ring,
    },
    /// The given height is below the one that the routed row needs.
    Tall {
        placement: Placement,
        log: KeptLog,
        routing: Routing,
        needed: u32,
        given: u32,
    },
    /// The search spent its budget.
    Unfinished {
        log: KeptLog,
        proved: u32,
    },
}

impl Outcome {
    // What the first least row resulted in, with the log of its search.
    fn with_log(came: DrawOutcome, log: KeptLog) -> Outcome
        ensures { result ≡ with_log came log }
    {
        match came {
            DrawOutcome::Drawn {
                placement,
                routing,
                drawn,
            } => Outcome::Made {
                placement,
                log,
                routing,
                drawn,
            },
            DrawOutcome::Cyclic { placement, ring } => Outcome::Cyclic {
                placement,
                log,
                ring,
            },
            DrawOutcome::Tall {
                placement,
                routing,
                needed,
                given,
            } => Outcome::Tall {
                placement,
                log,
                routing,
                needed,
                given,
            },
        }
    }

    /// The drawing of the first least row in this style, with its log; or the log, with a cycle of the row, with a
    /// height that is not enough, or of a search that spent its budget. A drawing can be written.
    pub fn of(alloc: Global, inputs: &Inputs, style: Style) -> Result<Outcome, NoMemory>
        ensures comes { IfOk result (ComesTo style inputs.now) }
        ensures written { IfOk result (CanBeWritten inputs.now) }
        // the row is on its lines
        ensures placed { IfOk result IsOnItsLines }
        ensures extent { IfOk result (LiesInFrame inputs.now) }
    {
        let planned = Planned::of(alloc, inputs)?;
        match planned {
            Planned::Found { row, log } => {
                let came = DrawOutcome::of(alloc, inputs, style, &row)?;
                Ok(Outcome::with_log(came, log))
            }
            Planned::Unfinished { log, proved } => Ok(Outcome::Unfinished { log, proved }),
        }
    }
}
