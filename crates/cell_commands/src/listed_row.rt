ghost use Rattle.std.specs.Prelude.{◌≡◌, All, IfOk, List as Sequence};
ghost use Rattle.bound_log.specs.Fits.{StepFits};
ghost use Rattle.log_check.specs.Accepted.{IsListed, columns_listed};
ghost use Rattle.cell_commands.specs.Listed.{IsRowOf};
ghost use Rattle.cell_commands.specs.Sides.{HasKinds, IsListedAs};

use crate::side::side;
use bound_log::{LogStep, LogSteps};
use cell_num::{NoMemory, Row};
use row_model::{Arrangement, Column};
use row_state::{Kinds, Step};
use std::alloc::Global;

// The column as a log lists it.
#[tactic(auto, using(crate::proofs::Rules::listed_rules))]
fn listed(kinds: &Kinds, column: &Column) -> LogStep
    requires { HasKinds kinds.now column.now }
    ensures { IsListedAs kinds.now column.now result }
{
    kinds.show_limits();
    let step = Step {
        p: side(Row::P, kinds.p.as_slice(), &column.p),
        n: side(Row::N, kinds.n.as_slice(), &column.n),
    };
    match column.gate() {
        Some(gate) => LogStep { gate, step },
        None => unreachable!(),
    }
}

fn list_columns(alloc: Global, kinds: &Kinds, columns: &[Column]) -> Result<LogSteps, NoMemory>
    requires { All (HasKinds kinds.now) columns.now }
    ensures columns { IfOk result (λ steps. columns_listed kinds.now steps ≡ columns.now) }
    ensures listed { IfOk result (λ steps. All (IsListed kinds.now) steps) }
    ensures fits { IfOk result (λ steps. All (StepFits kinds.now) steps) }
{
    let mut steps = LogSteps::new(alloc);
    'columns: for column in columns {
        steps.push(listed(kinds, column))?;
    }
    Ok(steps)
}

/// The columns of a row of the kinds' fingers as a log lists them: each by its gate, and each of its fingers by the
/// number of its kind in its row, flipped or not.
pub fn list_row(alloc: Global, kinds: &Kinds, row: &Arrangement) -> Result<LogSteps, NoMemory>
    requires { IsRowOf kinds.now row.now }
    // the columns that are listed are those of the row
    ensures columns { IfOk result (λ steps. columns_listed kinds.now steps ≡ row.now) }
    // each finger is of one of the kinds, and its gate is the column's
    ensures listed { IfOk result (λ steps. All (IsListed kinds.now) steps) }
    // a text can hold them
    ensures fits { IfOk result (λ steps. All (StepFits kinds.now) steps) }
    // no other list does so
    ensures only { IfOk result (λ steps. (other : Sequence LogStep) → columns_listed kinds.now other ≡ row.now
        → All (IsListed kinds.now) other → other ≡ steps) }
{
    kinds.show_limits();
    let steps = list_columns(alloc, kinds, row.as_slice())?;
    Ok(steps)
}
