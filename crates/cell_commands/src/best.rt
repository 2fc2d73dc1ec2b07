ghost use Rattle.std.specs.Prelude.{IfOk};
ghost use Rattle.cell_commands.specs.Listed.{IsBestOf, IsRowOf};

use crate::listed_row::list_row;
use bound_log::Best;
use cell_num::NoMemory;
use row_model::{Arrangement, gaps};
use row_state::Kinds;
use std::alloc::Global;

/// A row of the kinds' fingers as a log lists it, with its gaps.
#[tactic(auto, using(crate::proofs::Arranged::is_best))]
pub fn list_best(alloc: Global, kinds: &Kinds, row: &Arrangement) -> Result<Best, NoMemory>
    requires { IsRowOf kinds.now row.now }
    ensures { IfOk result (IsBestOf kinds.now row.now) }
{
    kinds.show_limits();
    let steps = list_row(alloc, kinds, row)?;
    Ok(Best {
        gaps: gaps(row),
        steps,
    })
}
