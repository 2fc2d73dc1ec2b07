// The state that a search of rows begins at, and the row that it finds.
ghost use Rattle.std.specs.Prelude.{◌≡◌, IfOk, map, reverse};
ghost use Rattle.row_state.specs.Candidates.{IsNumbered};
ghost use Rattle.row_state.specs.Start.{start_of};
ghost use Rattle.row_state.specs.Steps.{column_of};

use cell_num::{List, NoMemory};
use row_model::{Arrangement, Column};
use row_state::{Kinds, Numbered, Step, column, start};
use std::alloc::{AllocError, Global};

/// The start state with its number.
pub fn numbered_start(alloc: Global, kinds: &Kinds) -> Result<Numbered, NoMemory>
    ensures state { IfOk result (λ first. first.state ≡ start_of kinds.now) }
    ensures numbered { IfOk result (IsNumbered kinds.now) }
{
    Ok(Numbered::new(start(alloc, kinds)?, kinds))
}

fn columns(alloc: Global, steps: &[Step], kinds: &Kinds) -> Result<Vec<Column>, AllocError>
    ensures { IfOk result (λ columns. columns.items ≡ map (column_of kinds.now) (reverse steps.now)) }
{
    steps
        .iter()
        .rev()
        .map(|step| column(step, kinds))
        .collect(alloc)
}

/// The row of the steps, which were found from the last to the first.
pub fn row_of(alloc: Global, steps: &[Step], kinds: &Kinds) -> Result<Arrangement, NoMemory>
    ensures { IfOk result (λ row. row ≡ map (column_of kinds.now) (reverse steps.now)) }
{
    Ok(List::from_vec(columns(alloc, steps, kinds)?))
}
