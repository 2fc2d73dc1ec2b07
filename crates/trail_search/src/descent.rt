ghost use Rattle.std.specs.Prelude.{◌≤◌, ◌+◌, IfOk, IfErr, IfSome, IfNone};
ghost use Rattle.row_state.specs.Candidates.{AreCandidates, IsNumbered};
ghost use Rattle.row_state.specs.Completion.{Need};
ghost use Rattle.row_state.specs.Start.{columns_left};
ghost use Rattle.lemma_check.specs.Known.{best_known};
ghost use Rattle.trail_search.specs.Lists.{AreRight};
ghost use Rattle.trail_search.specs.Visit.{AreTrue, Halts, IfSpent, IsFirstOf, IsSpent};

use crate::cut::exceeds_allowed;
use crate::lists::ChoiceLists;
use cell_num::{Halt, MOST_COLUMNS};
use lemma_check::Known;
use row_state::{Candidate, Kinds, Numbered, Steps, has_fingers};
use std::alloc::Global;

/// What a search is given.
#[derive(Drop)]
pub(crate) struct Task<'a> {
    pub alloc: Global,
    pub kinds: &'a Kinds,
    /// All columns that may come next in some state.
    pub candidates: &'a [Candidate],
    /// Whether trails are tried to refute states.
    pub tries: bool,
}

/// The first completion of the state with as few gaps as are allowed, its last step first, or none. What is known of
/// states is true. A visit takes one unit of those left. The trails that are tried take others.
pub(crate) fn visit(
    task: &Task,
    known: &mut Known,
    lists: &mut ChoiceLists,
    left: &mut u64,
    at: &Numbered,
    allowed: u32,
) -> Result<Option<Steps>, Halt>
    requires candidates { AreCandidates task.now.kinds.now task.now.candidates.now }
    requires numbered { IsNumbered task.now.kinds.now at.now }
    requires few { allowed ≤ MOST_COLUMNS }
    requires known { AreTrue task.now.kinds.now known.old }
    requires unknown { best_known known.old task.now.kinds.now at.now.state ≤ allowed }
    requires right { AreRight lists.old }
    ensures known { AreTrue task.now.kinds.now known.new }
    ensures right { AreRight lists.new }
    ensures left { left.new ≤ left.old }
    ensures failed { IfOk result (λ r. IfNone r (Need task.now.kinds.now at.now.state (allowed + 1))) }
    ensures found { IfOk result (λ r. IfSome r (IsFirstOf task.now.kinds.now at.now.state allowed)) }
    ensures halted { IfErr result (Halts left.new) }
    ensures bounds { IfOk result (λ r. IfNone r (IsSpent task.now.kinds.now task.now.tries
        (columns_left task.now.kinds.now at.now.state + 1) at.now.state (allowed + 1) known.old known.new left.old
        left.new 0)) }
    ensures spent { IfErr result (λ why. IfSpent why (IsSpent task.now.kinds.now task.now.tries
        (columns_left task.now.kinds.now at.now.state + 1) at.now.state (allowed + 1) known.old known.new left.old
        left.new (columns_left task.now.kinds.now at.now.state))) }
{
    task.kinds.show_limits();
    if *left == 0 {
        return Err(Halt::Spent);
    }
    *left -= 1;
    if !has_fingers(&at.state) {
        return Ok(Some(Steps::new(task.alloc)));
    }
    if exceeds_allowed(
        task.alloc, task.tries, &at.state, task.kinds, allowed, lists, left,
    )? {
        known.note_at(at.code, allowed + 1)?;
        return Ok(None);
    }
    for next in task.candidates {
        if !at.allows(task.kinds, next) {
            continue;
        }
        let cost = at.cost(next);
        if allowed < cost {
            continue;
        }
        if known.best_at(at.code_behind(task.kinds, next)) > allowed - cost {
            continue;
        }
        let behind = at.behind(task.alloc, task.kinds, next)?;
        let tried = match visit(task, known, lists, left, &behind, allowed - cost) {
            Ok(tried) => tried,
            Err(halt) => return Err(halt),
        };
        if let Some(mut rest) = tried {
            rest.push(next.step)?;
            return Ok(Some(rest));
        }
    }
    known.note_at(at.code, allowed + 1)?;
    Ok(None)
}
