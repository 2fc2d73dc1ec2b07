ghost use Rattle.std.specs.Prelude.{◌+◌, IfOk, IfSome, IfNone};
ghost use Rattle.row_state.specs.Emptied.{AreEmpty};
ghost use Rattle.row_state.specs.Start.{IsState};
ghost use Rattle.bound_log.specs.declared.log.Rule.TheVariants.{Branch};
ghost use Rattle.lemma_check.specs.Noted.{AreNoted};
ghost use Rattle.row_search.specs.Ended.{IsFirstRule};
ghost use Rattle.row_search.specs.Visit.{RowReaches};

use crate::descent::Task;
use bound_log::Rule;
use cell_num::{NoMemory, Row};
use lemma_check::RowTrails;
use row_state::{EmptyPlaces, RowBound, State};

// The rule by which the bound of one row alone is above what is allowed.
pub(crate) fn row_rule<B: RowBound>(
    task: &Task<B>,
    trails: &mut RowTrails,
    state: &State,
    empty: &EmptyPlaces,
    allowed: u32,
) -> Result<Option<Rule>, NoMemory>
    requires state { IsState task.now.kinds.now state.now }
    requires empty { AreEmpty task.now.kinds.now state.now empty.now }
    requires noted { AreNoted (B.trails_of task.now.bound.now) task.now.kinds.now trails.old }
    ensures noted { AreNoted (B.trails_of task.now.bound.now) task.now.kinds.now trails.new }
    ensures some { IfOk result (λ rule. IfSome rule (RowReaches (B.value task.now.bound.now) task.now.kinds.now
        state.now (allowed + 1))) }
    ensures none { IfOk result (λ rule. IfNone rule (IsFirstRule (B.value task.now.bound.now) task.now.kinds.now
        state.now (allowed + 1) Branch)) }
{
    let p = trails.of(task.bound, task.kinds, Row::P, state)?;
    if task
        .bound
        .is_above(Row::P, state, task.kinds, p, empty.p, allowed)
    {
        return Ok(Some(Rule::P));
    }
    let n = trails.of(task.bound, task.kinds, Row::N, state)?;
    if task
        .bound
        .is_above(Row::N, state, task.kinds, n, empty.n, allowed)
    {
        return Ok(Some(Rule::N));
    }
    Ok(None)
}
