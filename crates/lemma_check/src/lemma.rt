ghost use Rattle.std.specs.Prelude.{◌≤◌, ◌↔◌, IfOk, IsTrue};
ghost use Rattle.row_state.specs.Candidates.{AreCandidates, IsCandidate, IsNumbered};
ghost use Rattle.row_state.specs.Start.{IsState};
ghost use Rattle.row_state.specs.Steps.{IsPossible};
ghost use Rattle.lemma_check.specs.Reaches.{BranchReaches, RuleReaches, StepReaches};
ghost use Rattle.lemma_check.specs.Known.{best_known};
ghost use Rattle.lemma_check.specs.Noted.{AreNoted};

use crate::{Known, RowTrails};
use bound_log::Rule;
use cell_num::{NoMemory, Row};
use row_state::{
    Candidate, Candidates, Kinds, Numbered, RowBound, State, count_empty, has_fingers,
};

// Whether the column's cost and the best earlier bound after it reach the bound.
fn step_reaches(kinds: &Kinds, known: &Known, from: &Numbered, next: &Candidate, bound: u32) -> bool
    requires numbered { IsNumbered kinds.now from.now }
    requires next { IsCandidate kinds.now next.now }
    requires step { IsPossible kinds.now from.now.state next.now.step }
    ensures { IsTrue result ↔
        StepReaches kinds.now (best_known known.now kinds.now) from.now.state bound next.now.step }
{
    let behind = known.best_at(from.code_behind(kinds, next));
    u64::from(bound) <= u64::from(from.cost(next)) + u64::from(behind)
}

// Whether the column reaches the bound, if it may come next.
fn passes(kinds: &Kinds, known: &Known, from: &Numbered, next: &Candidate, bound: u32) -> bool
    requires numbered { IsNumbered kinds.now from.now }
    requires next { IsCandidate kinds.now next.now }
    ensures { IsTrue result ↔
        (IsPossible kinds.now from.now.state next.now.step →
        StepReaches kinds.now (best_known known.now kinds.now) from.now.state bound next.now.step) }
{
    if !from.allows(kinds, next) {
        return true;
    }
    step_reaches(kinds, known, from, next, bound)
}

#[tactic(auto, using(crate::proofs::Branches::candidate_is))]
fn branch_reaches(
    kinds: &Kinds,
    known: &Known,
    candidates: &Candidates,
    from: &Numbered,
    bound: u32,
) -> bool
    requires candidates { AreCandidates kinds.now candidates.now }
    requires numbered { IsNumbered kinds.now from.now }
    ensures { IsTrue result ↔
        BranchReaches kinds.now (best_known known.now kinds.now) from.now.state bound }
{
    for next in candidates.as_slice() {
        if !passes(kinds, known, from, next, bound) {
            return false;
        }
    }
    true
}

// Whether the bound of one row alone reaches the lemma's.
#[tactic(auto, using(crate::proofs::Branches::above_is))]
fn row_reaches<B: RowBound>(
    kinds: &Kinds,
    bound: &B,
    trails: &mut RowTrails,
    row: Row,
    state: &State,
    reached: u32,
) -> Result<bool, NoMemory>
    requires state { IsState kinds.now state.now }
    requires noted { AreNoted (B.trails_of bound.now) kinds.now trails.old }
    ensures noted { AreNoted (B.trails_of bound.now) kinds.now trails.new }
    ensures reaches { IfOk result (λ holds. IsTrue holds ↔ (reached ≤ B.value bound.now row state.now kinds.now)) }
{
    if reached == 0 {
        return Ok(true);
    }
    let counted = trails.of(bound, kinds, row, state)?;
    let empty = count_empty(row, state, kinds);
    Ok(bound.is_above(row, state, kinds, counted, empty, reached - 1))
}

/// What a lemma may rest on: all columns that may ever come next, the bounds of earlier lemmas, and that of a row.
#[derive(Clone, Copy)]
pub struct Premises<'a, B> {
    pub kinds: &'a Kinds,
    pub candidates: &'a Candidates,
    pub known: &'a Known,
    pub bound: &'a B,
}

/// Whether by this rule each completion of the state has `reached` further gaps or more. The trails of rows that are
/// counted for it are noted.
pub fn reaches<B: RowBound>(
    premises: &Premises<B>,
    trails: &mut RowTrails,
    at: &Numbered,
    rule: Rule,
    reached: u32,
) -> Result<bool, NoMemory>
    requires candidates { AreCandidates premises.now.kinds.now premises.now.candidates.now }
    requires numbered { IsNumbered premises.now.kinds.now at.now }
    requires noted { AreNoted (B.trails_of premises.now.bound.now) premises.now.kinds.now trails.old }
    ensures noted { AreNoted (B.trails_of premises.now.bound.now) premises.now.kinds.now trails.new }
    ensures reaches { IfOk result (λ holds. IsTrue holds ↔ RuleReaches (B.value premises.now.bound.now)
        premises.now.kinds.now (best_known premises.now.known.now premises.now.kinds.now) rule at.now.state reached) }
{
    let kinds = premises.kinds;
    match rule {
        Rule::P => row_reaches(kinds, premises.bound, trails, Row::P, &at.state, reached),
        Rule::N => row_reaches(kinds, premises.bound, trails, Row::N, &at.state, reached),
        Rule::Branch => {
            if has_fingers(&at.state) {
                Ok(branch_reaches(kinds, premises.known, premises.candidates, at, reached))
            } else {
                Ok(false)
            }
        }
    }
}
