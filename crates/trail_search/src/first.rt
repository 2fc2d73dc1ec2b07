ghost use Rattle.std.specs.Prelude.{◌≡◌, ◌≤◌, ◌+◌, IfErr, IfNone, IfOk, IfSome};
ghost use Rattle.row_state.specs.Candidates.{AreCandidates, IsNumbered};
ghost use Rattle.row_state.specs.Completion.{Need};
ghost use Rattle.row_state.specs.Start.{columns_left, start_of};
ghost use Rattle.trail_search.specs.First.{IsFirstRow, listed_of};
ghost use Rattle.trail_search.specs.Lists.{AreRight};
ghost use Rattle.trail_search.specs.Searched.{WentForRow};
ghost use Rattle.trail_search.specs.Visit.{AreTrue, IfSpent, IsFirstOf, IsSpent};

use crate::Attempts;
use crate::descent::{Task, visit};
use crate::lists::ChoiceLists;
use bound_log::Best;
use cell_num::{Halt, MOST_COLUMNS, NoMemory};
use lemma_check::Known;
use row_model::Arrangement;
use row_search::{arrangement, log_steps};
use row_state::{Candidate, Kinds, Numbered, Step, Steps, candidates, start};
use std::alloc::Global;

/// A row, and how a certificate lists it.
#[derive(Debug, Drop)]
pub struct ListedRow {
    pub row: Arrangement,
    pub best: Best,
}

fn listed(alloc: Global, kinds: &Kinds, gaps: u32, steps: &[Step]) -> Result<ListedRow, NoMemory>
    ensures { IfOk result (λ listed. listed ≡ listed_of kinds.now gaps steps.now) }
{
    let row = arrangement(alloc, steps, kinds)?;
    let steps = log_steps(alloc, steps, kinds)?;
    Ok(ListedRow {
        row,
        best: Best { gaps, steps },
    })
}

/// What searches for a row know of states, and which choices they have listed.
#[derive(Drop)]
struct Learned {
    known: Known,
    lists: ChoiceLists,
}

// One search with so many units. It goes on with what is known.
fn search(
    task: &Task,
    learned: &mut Learned,
    units: u64,
    first: &Numbered,
    gaps: u32,
) -> Result<Option<Steps>, Halt>
    requires candidates { AreCandidates task.now.kinds.now task.now.candidates.now }
    requires numbered { IsNumbered task.now.kinds.now first.now }
    requires few { gaps ≤ MOST_COLUMNS }
    requires known { AreTrue task.now.kinds.now learned.old.known }
    requires right { AreRight learned.old.lists }
    ensures known { AreTrue task.now.kinds.now learned.new.known }
    ensures right { AreRight learned.new.lists }
    ensures none { IfOk result (λ r. IfNone r (Need task.now.kinds.now first.now.state (gaps + 1))) }
    ensures found { IfOk result (λ r. IfSome r (IsFirstOf task.now.kinds.now first.now.state gaps)) }
    ensures spent { IfErr result (λ why. IfSpent why (IsSpent task.now.kinds.now task.now.tries
        (columns_left task.now.kinds.now first.now.state + 1) first.now.state (gaps + 1) learned.old.known
        learned.new.known units 0 (columns_left task.now.kinds.now first.now.state))) }
{
    if learned.known.best_at(first.code) > gaps {
        return Ok(None);
    }
    let mut left = units;
    visit(
        task,
        &mut learned.known,
        &mut learned.lists,
        &mut left,
        first,
        gaps,
    )
}

// The steps of the first completion of the start state with at most this number of gaps, the last step first, or none.
// The second of two searches goes on with what the first one knows.
#[tactic(auto, using(crate::proofs::Rules::steps_rules))]
fn steps_within(
    alloc: Global,
    kinds: &Kinds,
    candidates: &[Candidate],
    attempts: Attempts,
    units: u64,
    first: &Numbered,
    gaps: u32,
) -> Result<Option<Steps>, Halt>
    requires candidates { AreCandidates kinds.now candidates.now }
    requires state { first.now.state ≡ start_of kinds.now }
    requires numbered { IsNumbered kinds.now first.now }
    requires few { gaps ≤ MOST_COLUMNS }
    ensures none { IfOk result (λ r. IfNone r (Need kinds.now first.now.state (gaps + 1))) }
    ensures found { IfOk result (λ r. IfSome r (IsFirstOf kinds.now first.now.state gaps)) }
    ensures spent { IfErr result (λ why. IfSpent why (WentForRow kinds.now attempts (gaps + 1) units
        (columns_left kinds.now (start_of kinds.now)))) }
{
    kinds.show_limits();
    let mut learned = Learned {
        known: Known::new(alloc),
        lists: ChoiceLists::new(alloc),
    };
    let plain = Task {
        alloc,
        kinds,
        candidates,
        tries: false,
    };
    let trying = Task {
        alloc,
        kinds,
        candidates,
        tries: true,
    };
    match attempts {
        Attempts::Never => search(&plain, &mut learned, units, first, gaps),
        Attempts::AtOnce => search(&trying, &mut learned, units, first, gaps),
        Attempts::InSecondHalf => {
            let half = units / 2;
            match search(&plain, &mut learned, half, first, gaps) {
                Ok(steps) => Ok(steps),
                Err(Halt::Spent) => search(&trying, &mut learned, units - half, first, gaps),
                Err(Halt::NoMemory) => Err(Halt::NoMemory),
            }
        }
    }
}

// The first row from the start that has at most this number of gaps, or none. Big values are dropped by calls, here and
// below: where one goes out of scope by itself, all its parts are proved at each end.
#[tactic(auto, using(crate::proofs::Rules::row_from_rules))]
fn row_from(
    alloc: Global,
    kinds: &Kinds,
    gaps: u32,
    attempts: Attempts,
    units: u64,
    first: &Numbered,
) -> Result<Option<ListedRow>, Halt>
    requires few { gaps ≤ MOST_COLUMNS }
    requires state { first.now.state ≡ start_of kinds.now }
    requires numbered { IsNumbered kinds.now first.now }
    ensures found { IfOk result (λ r. IfSome r (IsFirstRow kinds.now gaps)) }
    ensures none { IfOk result (λ r. IfNone r (Need kinds.now (start_of kinds.now) (gaps + 1))) }
    ensures spent { IfErr result (λ why. IfSpent why (WentForRow kinds.now attempts (gaps + 1) units
        (columns_left kinds.now (start_of kinds.now)))) }
{
    let candidates = candidates(alloc, kinds)?;
    match steps_within(
        alloc,
        kinds,
        candidates.as_slice(),
        attempts,
        units,
        first,
        gaps,
    ) {
        Ok(Some(steps)) => Ok(Some(listed(alloc, kinds, gaps, steps.as_slice())?)),
        Ok(None) => Ok(None),
        Err(halt) => Err(halt),
    }
}

/// The first row that has at most this number of gaps, or none. A visit of a state takes one of the units, and an
/// attempt by trails to refute it takes others. Of two searches the second one goes on with what the first one knows.
pub fn first_row(
    alloc: Global,
    kinds: &Kinds,
    gaps: u32,
    attempts: Attempts,
    units: u64,
) -> Result<Option<ListedRow>, Halt>
    requires few { gaps ≤ MOST_COLUMNS }
    ensures found { IfOk result (λ r. IfSome r (IsFirstRow kinds.now gaps)) }
    ensures none { IfOk result (λ r. IfNone r (Need kinds.now (start_of kinds.now) (gaps + 1))) }
    ensures spent { IfErr result (λ why. IfSpent why (WentForRow kinds.now attempts (gaps + 1) units
        (columns_left kinds.now (start_of kinds.now)))) }
{
    let first = Numbered::new(start(alloc, kinds)?, kinds);
    let row = row_from(alloc, kinds, gaps, attempts, units, &first);
    drop(first);
    row
}
