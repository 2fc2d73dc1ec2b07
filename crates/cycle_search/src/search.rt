// The first row without a cycle, or a certificate that there is none.
ghost use Rattle.std.specs.Prelude.{◌≡◌, ◌≤◌, [], All, IfErr, IfNone, IfOk, IfSome, length};
ghost use Rattle.row_state.specs.Candidates.{AreCandidates, IsNumbered};
ghost use Rattle.row_state.specs.Start.{start_of};
ghost use Rattle.row_cycles.specs.Certificate.{Certifies};
ghost use Rattle.row_cycles.specs.Fits.{CycleFits};
ghost use Rattle.row_cycles.specs.Noted.{AreNoted};
ghost use Rattle.cycle_search.specs.Search.{AreKept, HasReason, IsEnd, IsFirstWired, IsSpent, lemmas_in};
ghost use Rattle.cell_num.specs.declared.halt.Halt.TheVariants.{Spent};

use crate::ahead::Task;
use crate::asked::Asked;
use crate::progress::Progress;
use crate::visit::visit;
use cell_num::{Halt, NoMemory, Pins};
use row_cycles::{CycleLemmas, numbered_start, row_of};
use row_model::Arrangement;
use row_needs::GapBound;
use row_state::{Kinds, Numbered, candidates};
use std::alloc::Global;

/// What the search for a row without a cycle ends with.
#[derive(Debug, Drop)]
pub enum WiredRow {
    /// The first row that has no cycle.
    Found { row: Arrangement },
    /// They certify that each row has one.
    None { lemmas: CycleLemmas },
    /// There is a lemma more than the budget allows.
    Spent,
}

// The first row from the start, or none: then the lemmas are a certificate.
fn search_start<B: GapBound>(
    task: &Task<B>,
    first: &Numbered,
    progress: &mut Progress,
) -> Result<Option<Arrangement>, Halt>
    requires candidates { AreCandidates task.now.kinds.now task.now.candidates.now }
    requires state { first.now.state ≡ start_of task.now.kinds.now }
    requires numbered { IsNumbered task.now.kinds.now first.now }
    requires lemmas { progress.old.lemmas ≡ [] }
    requires noted { AreNoted task.now.kinds.now progress.old.lemmas progress.old.places }
    ensures found { IfOk result (λ r. IfSome r (IsFirstWired task.now.pins.now task.now.kinds.now task.now.gaps)) }
    ensures none { IfOk result (λ r. IfNone r (Certifies (B.value task.now.bound.now) task.now.pins.now
        task.now.kinds.now task.now.gaps progress.new.lemmas)) }
    ensures kept { IfOk result (λ r. IfNone r (AreKept (B.value task.now.bound.now) task.now.pins.now
        task.now.kinds.now task.now.gaps progress.new.lemmas)) }
    ensures few { IfOk result (λ r. IfNone r (length progress.new.lemmas ≤ task.now.budget)) }
    ensures spent { IfErr result (λ halt. halt ≡ Spent → IsSpent (B.value task.now.bound.now) task.now.pins.now
        task.now.kinds.now task.now.gaps task.now.budget) }
{
    let kinds = task.kinds;
    kinds.show_limits();
    // no line is passed yet
    let asked = Asked::new(task.alloc, kinds.nets)?;
    let found = match visit(task, progress, first, &asked, task.gaps) {
        Ok(found) => found,
        Err(halt) => return Err(halt),
    };
    if let Some(steps) = found {
        let row = row_of(task.alloc, steps.as_slice(), kinds)?;
        return Ok(Some(row));
    }
    Ok(None)
}

// The search from the start.
fn search_task<B: GapBound>(task: &Task<B>, first: &Numbered) -> Result<WiredRow, NoMemory>
    requires candidates { AreCandidates task.now.kinds.now task.now.candidates.now }
    requires state { first.now.state ≡ start_of task.now.kinds.now }
    requires numbered { IsNumbered task.now.kinds.now first.now }
    ensures end { IfOk result (IsEnd (B.value task.now.bound.now) task.now.pins.now task.now.kinds.now task.now.gaps) }
    ensures kept { IfOk result (HasReason (B.value task.now.bound.now) task.now.pins.now task.now.kinds.now
        task.now.gaps task.now.budget) }
{
    let mut progress = Progress::new(task.alloc);
    match search_start(task, first, &mut progress) {
        Ok(Some(row)) => Ok(WiredRow::Found { row }),
        Ok(None) => Ok(WiredRow::None {
            lemmas: progress.lemmas,
        }),
        Err(Halt::Spent) => Ok(WiredRow::Spent),
        Err(Halt::NoMemory) => Err(NoMemory),
    }
}

/// The first row of the kinds' fingers with at most that many gaps whose lines put no nets above others in a cycle; or
/// a certificate that each such row has a cycle; or neither, where the search needs more lemmas than the budget.
pub fn wired_row<B: GapBound>(
    alloc: Global,
    bound: &B,
    pins: &Pins,
    kinds: &Kinds,
    gaps: u32,
    budget: u64,
) -> Result<WiredRow, NoMemory>
    ensures end { IfOk result (IsEnd (B.value bound.now) pins.now kinds.now gaps) }
    // none of its lemmas is idle, and they are no more than the budget; where it is spent, more of them are kept
    ensures kept { IfOk result (HasReason (B.value bound.now) pins.now kinds.now gaps budget) }
    ensures fits { gaps ≤ 63 → IfOk result (λ ended. All (CycleFits kinds.now) (lemmas_in ended)) }
{
    let first = numbered_start(alloc, kinds)?;
    let candidates = candidates(alloc, kinds)?;
    let task = Task {
        alloc,
        kinds,
        pins,
        candidates: &candidates,
        bound,
        gaps,
        budget,
    };
    let ended = search_task(&task, &first)?;
    Ok(ended)
}
