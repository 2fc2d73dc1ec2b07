ghost use Rattle.std.specs.Prelude.{IfOk};
ghost use Rattle.row_search.specs.First.{IsFirstLeast};
ghost use Rattle.cell_make.specs.RowSteps.{IsLowDrawn};
ghost use Rattle.cell_make.specs.Rows.{CanRowBeWritten, LiesRowInFrame};

use crate::draw_outcome::DrawOutcome;
use crate::low_planned::LowPlanned;
use cell_inputs::{Inputs, Style, Wiring};
use cell_num::NoMemory;
use row_model::Arrangement;
use row_place::place;
use std::alloc::Global;

/// What drawing the lowest row of a cell results in; where the search for it is open, the first row that can be wired
/// with the fewest gaps; where none is known, a cycle of the first least row.
#[derive(Drop)]
pub struct LowDrawn {
    pub came: DrawOutcome,
    /// Where a cycle ends it: no row can be wired. Else the search for one spent its budget.
    pub none_wired: bool,
}

impl LowDrawn {
    /// The lowest row, by the first least row, drawn with straight trunks and no taps.
    pub fn of(alloc: Global, inputs: &Inputs, row: &Arrangement) -> Result<LowDrawn, NoMemory>
        requires { IsFirstLeast inputs.now.fingers row.now }
        ensures comes { IfOk result (IsLowDrawn inputs.now row.now) }
        ensures written { IfOk result (λ low. CanRowBeWritten inputs.now low.came) }
        ensures extent { IfOk result (λ low. LiesRowInFrame inputs.now low.came) }
    {
        inputs.show_limits();
        let style = Style::plain();
        let planned = LowPlanned::of(alloc, inputs, Wiring::Straight, row)?;
        match planned {
            LowPlanned::Found {
                placement,
                routing,
                certificate,
            } => {
                drop(certificate);
                let came = DrawOutcome::lowest(alloc, inputs, style, placement, routing)?;
                Ok(LowDrawn {
                    came,
                    none_wired: false,
                })
            }
            LowPlanned::Open {
                row: wired,
                certificate,
            } => {
                drop(certificate);
                let came = DrawOutcome::of(alloc, inputs, style, &wired)?;
                Ok(LowDrawn {
                    came,
                    none_wired: false,
                })
            }
            LowPlanned::Unwired {
                ring,
                certificate,
                none_wired,
            } => {
                drop(certificate);
                let placement = place(alloc, row)?;
                let came = DrawOutcome::Cyclic { placement, ring };
                Ok(LowDrawn { came, none_wired })
            }
        }
    }
}
