ghost use Rattle.std.specs.Prelude.{◌≡◌, IfOk};
ghost use Rattle.row_search.specs.Steps.{gate_of, listed_of, row_of, steps_of};

use bound_log::{LogStep, LogSteps};
use cell_num::{List, NetNo, NoMemory};
use row_model::{Arrangement, Column};
use row_state::{Kinds, Step, column};
use std::alloc::{AllocError, Global};

// The gate of the fingers of a column.
fn gate(column: &Column) -> NetNo
    ensures { result ≡ gate_of column.now }
{
    match column.gate() {
        Some(net) => net,
        None => NetNo(0),
    }
}

fn listed(step: &Step, kinds: &Kinds) -> LogStep
    ensures { result ≡ listed_of kinds.now step.now }
{
    LogStep {
        gate: gate(&column(step, kinds)),
        step: *step,
    }
}

fn columns(alloc: Global, steps: &[Step], kinds: &Kinds) -> Result<Vec<Column>, AllocError>
    ensures { IfOk result (λ columns. columns.items ≡ row_of kinds.now steps.now) }
{
    steps
        .iter()
        .rev()
        .map(|step| column(step, kinds))
        .collect(alloc)
}

fn all_listed(alloc: Global, steps: &[Step], kinds: &Kinds) -> Result<Vec<LogStep>, AllocError>
    ensures { IfOk result (λ all. all.items ≡ steps_of kinds.now steps.now) }
{
    steps
        .iter()
        .rev()
        .map(|step| listed(step, kinds))
        .collect(alloc)
}

/// The row of the steps, which were found from the last to the first.
pub fn arrangement(alloc: Global, steps: &[Step], kinds: &Kinds) -> Result<Arrangement, NoMemory>
    ensures { IfOk result (λ row. row ≡ row_of kinds.now steps.now) }
{
    Ok(List::from_vec(columns(alloc, steps, kinds)?))
}

/// The same steps as a log lists them.
pub fn log_steps(alloc: Global, steps: &[Step], kinds: &Kinds) -> Result<LogSteps, NoMemory>
    ensures { IfOk result (λ all. all ≡ steps_of kinds.now steps.now) }
{
    Ok(List::from_vec(all_listed(alloc, steps, kinds)?))
}
