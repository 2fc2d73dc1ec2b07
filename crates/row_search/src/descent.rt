ghost use Rattle.std.specs.Prelude.{◌≡◌, ◌≤◌, ◌<◌, ◌+◌, IfOk, IfErr, IfSome, IfNone, OnOk};
ghost use Rattle.row_state.specs.Candidates.{AreCandidates, IsNumbered};
ghost use Rattle.row_state.specs.Emptied.{AreEmpty};
ghost use Rattle.row_state.specs.Start.{columns_left};
ghost use Rattle.lemma_check.specs.Reaches.{best_of};
ghost use Rattle.lemma_check.specs.Noted.{AreNoted};
ghost use Rattle.cell_num.specs.declared.halt.Halt.TheVariants.{Spent};
ghost use Rattle.row_search.specs.SoFar.{KnowsAll};
ghost use Rattle.row_search.specs.Visit.{AreKept, HasFailed, HasFound, HasSpent, IsFurther};

use crate::progress::Progress;
use crate::row_rule::row_rule;
use bound_log::Rule;
use cell_num::{Halt, MOST_COLUMNS};
use lemma_check::RowTrails;
use row_state::{Candidate, EmptyPlaces, Kinds, Numbered, RowBound, Steps, has_fingers};
use std::alloc::Global;

/// What a search is given.
#[derive(Drop)]
pub(crate) struct Task<'a, B> {
    pub alloc: Global,
    pub kinds: &'a Kinds,
    /// All columns that may come next in some state.
    pub candidates: &'a [Candidate],
    pub bound: &'a B,
    pub budget: u64,
}

/// The first completion of the state with as few gaps as are allowed, its last step first, or none;
/// then a kept lemma proves it. No kept one does so far. `empty` are the places of the state that stay empty.
pub(crate) fn visit<B: RowBound>(
    task: &Task<B>,
    progress: &mut Progress,
    trails: &mut RowTrails,
    at: &Numbered,
    empty: EmptyPlaces,
    allowed: u32,
) -> Result<Option<Steps>, Halt>
    requires candidates { AreCandidates task.now.kinds.now task.now.candidates.now }
    requires numbered { IsNumbered task.now.kinds.now at.now }
    requires empty { AreEmpty task.now.kinds.now at.now.state empty }
    requires few { allowed ≤ MOST_COLUMNS }
    requires nodes { progress.old.nodes ≤ task.now.budget }
    requires lemmas { AreKept (B.value task.now.bound.now) task.now.kinds.now progress.old.lemmas }
    requires knows { KnowsAll task.now.kinds.now progress.old }
    requires low { best_of at.now.state progress.old.lemmas ≤ allowed }
    requires noted { AreNoted (B.trails_of task.now.bound.now) task.now.kinds.now trails.old }
    ensures noted { OnOk result (AreNoted (B.trails_of task.now.bound.now) task.now.kinds.now trails.new) }
    ensures further { IsFurther (B.value task.now.bound.now) task.now.kinds.now task.now.budget
        (columns_left task.now.kinds.now at.now.state + 1) at.now.state allowed progress.old progress.new }
    ensures failed { IfOk result (λ r. IfNone r (HasFailed task.now.kinds.now at.now.state allowed progress.old
        progress.new)) }
    ensures found { IfOk result (λ r. IfSome r (λ steps.
        HasFound task.now.kinds.now at.now.state allowed steps progress.old progress.new)) }
    ensures spent { IfErr result (λ halt. halt ≡ Spent →
        HasSpent task.now.kinds.now task.now.budget at.now.state progress.old progress.new) }
{
    task.kinds.show_limits();
    if progress.nodes() == task.budget {
        return Err(Halt::Spent);
    }
    progress.count_node();
    if !has_fingers(&at.state) {
        return Ok(Some(Steps::new(task.alloc)));
    }
    let served = row_rule(task, trails, &at.state, &empty, allowed)?;
    if let Some(rule) = served {
        progress.keep(at, allowed + 1, rule)?;
        return Ok(None);
    }
    for next in task.candidates {
        if !at.allows(task.kinds, next) {
            continue;
        }
        let cost = at.cost(next);
        if allowed < cost {
            continue;
        }
        if progress.best_at(at.code_behind(task.kinds, next)) > allowed - cost {
            continue;
        }
        let behind = at.behind(task.alloc, task.kinds, next)?;
        let beyond = empty.beyond(next);
        let tried = match visit(task, progress, trails, &behind, beyond, allowed - cost) {
            Ok(tried) => tried,
            Err(halt) => return Err(halt),
        };
        if let Some(mut rest) = tried {
            rest.push(next.step)?;
            return Ok(Some(rest));
        }
    }
    progress.keep(at, allowed + 1, Rule::Branch)?;
    Ok(None)
}
