ghost use Rattle.std.specs.Prelude.{◌≡◌, ◌<◌, ◌+◌, IfOk, IfErr, length};
ghost use Rattle.cell_num.specs.Fingers.{AreFingers, columns_of};
ghost use Rattle.row_state.specs.Candidates.{AreCandidates, IsNumbered};
ghost use Rattle.row_state.specs.Start.{start_of};
ghost use Rattle.lemma_check.specs.Noted.{AreNoted};
ghost use Rattle.log_check.specs.Accepted.{WithKinds};
ghost use Rattle.bound_log.specs.Kept.{log_with, log_without};
ghost use Rattle.row_search.specs.Ended.{IfOpen, IsSolved, IsSpent};
ghost use Rattle.row_search.specs.First.{IsFirstLeast};
ghost use Rattle.row_search.specs.Limits.{IsFound, StopsWell, found_of};

use crate::descent::{Task, visit};
use crate::listed::{arrangement, log_steps};
use crate::progress::Progress;
use crate::{FoundKept, StopKept};
use bound_log::Best;
use cell_num::{Fingers, Halt, NoMemory};
use lemma_check::RowTrails;
use row_state::{EmptyPlaces, Kinds, Numbered, RowBound, Step, candidates, columns, kinds, start};
use std::alloc::Global;

// The answer where the row of the steps is found, with this number of gaps.
fn finish(
    alloc: Global,
    kinds: &Kinds,
    progress: Progress,
    gaps: u32,
    steps: &[Step],
) -> Result<FoundKept, NoMemory>
    ensures { IfOk result (λ found. found ≡ found_of kinds.now progress gaps steps.now) }
{
    let row = arrangement(alloc, steps, kinds)?;
    let steps = log_steps(alloc, steps, kinds)?;
    let nodes = progress.nodes();
    Ok(FoundKept {
        row,
        kept: progress.into_kept(),
        best: Best { gaps, steps },
        nodes,
    })
}

fn numbered_start(alloc: Global, kinds: &Kinds) -> Result<Numbered, NoMemory>
    ensures state { IfOk result (λ first. first.state ≡ start_of kinds.now) }
    ensures numbered { IfOk result (IsNumbered kinds.now) }
{
    Ok(Numbered::new(start(alloc, kinds)?, kinds))
}

// Tries the limits in turn, from 0 on.
fn try_limits<B: RowBound>(
    task: &Task<B>,
    first: &Numbered,
    trails: &mut RowTrails,
) -> Result<FoundKept, StopKept>
    requires candidates { AreCandidates task.now.kinds.now task.now.candidates.now }
    requires state { first.now.state ≡ start_of task.now.kinds.now }
    requires numbered { IsNumbered task.now.kinds.now first.now }
    requires noted { AreNoted (B.trails_of task.now.bound.now) task.now.kinds.now trails.old }
    ensures found { IfOk result (IsFound (B.value task.now.bound.now) task.now.kinds.now task.now.budget) }
    ensures stopped { IfErr result (StopsWell (B.value task.now.bound.now) task.now.kinds.now task.now.budget) }
{
    task.kinds.show_limits();
    let mut progress = Progress::new(task.alloc, task.kinds)?;
    let empty = EmptyPlaces::of(&first.state, task.kinds);
    for limit in 0..columns(task.kinds) + 1 {
        if progress.best_at(first.code) > limit {
            continue;
        }
        match visit(task, &mut progress, trails, first, empty, limit) {
            Ok(Some(steps)) => {
                let found = finish(task.alloc, task.kinds, progress, limit, steps.as_slice())?;
                return Ok(found);
            }
            Ok(None) => {}
            Err(Halt::Spent) => {
                let proved = progress.best_at(first.code);
                let kept = progress.into_kept();
                return Err(StopKept::Unfinished { kept, proved });
            }
            Err(Halt::NoMemory) => {
                drop(progress);
                return Err(StopKept::NoMemory);
            }
        }
    }
    unreachable!()
}

// Searches from the start. It and the trails are dropped by calls: where they go out of scope by themselves, all their
// parts are proved at each end of the search.
fn search_task<B: RowBound>(task: &Task<B>) -> Result<FoundKept, StopKept>
    requires candidates { AreCandidates task.now.kinds.now task.now.candidates.now }
    ensures found { IfOk result (IsFound (B.value task.now.bound.now) task.now.kinds.now task.now.budget) }
    ensures stopped { IfErr result (StopsWell (B.value task.now.bound.now) task.now.kinds.now task.now.budget) }
{
    let first = numbered_start(task.alloc, task.kinds)?;
    let mut trails = RowTrails::new(task.alloc);
    let ended = try_limits(task, &first, &mut trails);
    drop(trails);
    drop(first);
    ended
}

/// The first least arrangement of the fingers, and the lemmas of a log of the bound's version that prove that none
/// has fewer gaps; or what is proved when the budget of nodes is spent. A node is a visit of a state of which no kept
/// lemma says that it fails.
pub fn search_kept<B: RowBound>(
    alloc: Global,
    fingers: &Fingers,
    bound: &B,
    budget: u64,
) -> Result<FoundKept, StopKept>
    requires { AreFingers fingers.now }
    ensures row { IfOk result (λ found. IsFirstLeast fingers.now found.row) }
    ensures solved { IfOk result (λ found. WithKinds fingers.now (λ k.
        IsSolved (B.value bound.now) k fingers.now budget found.row
        (log_with (B.version_of bound.now) found.kept found.best))) }
    ensures nodes { IfOk result (λ found. found.nodes ≡ length found.kept + columns_of fingers.now + 1) }
    ensures spent { IfOpen result (λ kept proved. WithKinds fingers.now (λ k.
        IsSpent (B.value bound.now) k fingers.now budget (log_without (B.version_of bound.now) kept) proved)) }
{
    let kinds = kinds(alloc, fingers)?;
    let candidates = candidates(alloc, &kinds)?;
    let task = Task {
        alloc,
        kinds: &kinds,
        candidates: candidates.as_slice(),
        bound,
        budget,
    };
    search_task(&task)
}
