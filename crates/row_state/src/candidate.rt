ghost use Rattle.std.specs.Prelude.{◌≡◌, ◌≤◌, ◌<◌, IfOk, IfSome, AllPairs, length};
ghost use Rattle.row_state.specs.declared.state.State.{State as StateOf};
ghost use Rattle.row_state.specs.Candidates.{AreCandidates, HaveEachNext, IsCandidate, candidate_steps, digit_of};
ghost use Rattle.row_state.specs.Candidates.{ends_of_step, rows_of_step};
ghost use Rattle.row_state.specs.Code.{count_lists};
ghost use Rattle.row_state.specs.Order.{KindBefore, gate_key};
ghost use Rattle.row_state.specs.Runs.{GatesFrom};
ghost use Rattle.row_state.specs.Start.{IsState, start_of};
ghost use Rattle.row_state.specs.Steps.{IsPossible, Unfolds, column_of};

use crate::coding::{end_number, lists};
use crate::{Kind, Kinds, Side, Step, column, start, successors};
use cell_num::{List, NoMemory};
use row_model::Column;
use row_trails::end_behind;
use std::alloc::Global;

/// A column that some state may allow as its next one.
#[derive(Clone, Copy, Debug)]
pub struct Candidate {
    pub step: Step,
    pub column: Column,
    /// What its fingers count in the number of the counts.
    pub rows: u64,
    /// The open ends after it, as the last two digits of a state's number.
    pub ends: u32,
    /// Where the kinds of its gate begin in each row.
    pub p_from: usize,
    pub n_from: usize,
}

/// Columns in the order of [`successors`].
pub type Candidates = List<Candidate>;

// What a finger of the side's kind counts.
#[tactic(auto, using(crate::proofs::Digits::lists_take))]
fn digit(kinds: &[Kind], side: &Option<Side>) -> u64
    requires few { count_lists kinds.now ≤ 4294967296 }
    requires within { IfSome side.now (λ side. side.kind < length kinds.now) }
    ensures value { result ≡ digit_of kinds.now side.now }
    ensures few { result ≤ 4294967296 }
{
    match side {
        Some(side) => lists(&kinds[..side.kind as usize]),
        None => 0,
    }
}

#[tactic(auto, using(crate::proofs::Rules::rows_rules))]
fn rows(step: &Step, kinds: &Kinds) -> u64
    requires step { IsPossible kinds.now (start_of kinds.now) step.now }
    ensures { result ≡ rows_of_step kinds.now step.now }
{
    let n_kinds = kinds.n.as_slice();
    digit(kinds.p.as_slice(), &step.p) * lists(n_kinds) + digit(n_kinds, &step.n)
}

#[tactic(auto, using(crate::proofs::Digits::ends_fit, crate::proofs::Digits::ends_are))]
fn ends(step: &Step, column: &Column, kinds: &Kinds) -> u32
    requires column { column.now ≡ column_of kinds.now step.now }
    ensures { result ≡ ends_of_step kinds.now step.now }
{
    kinds.show_limits();
    let nets = u128::from(kinds.nets) + 1;
    (end_number(&end_behind(&column.p)) * nets + end_number(&end_behind(&column.n))) as u32
}

// The place of the first kind on the gate, or on a higher one.
#[tactic(auto, using(crate::proofs::Runs::begins_here, crate::proofs::Runs::begins_last))]
fn first_on(kinds: &[Kind], gate: u32) -> usize
    requires order { AllPairs KindBefore kinds.now }
    ensures { GatesFrom kinds.now gate result }
{
    for at in 0..kinds.len() {
        if kinds[at].gate.0 >= gate {
            return at;
        }
    }
    kinds.len()
}

// The gate of a column that fills a place.
pub(crate) fn gate(column: &Column) -> u32
    ensures { result ≡ gate_key column.now.p column.now.n }
{
    match column.gate() {
        Some(net) => net.0,
        None => 0,
    }
}

fn of_step(step: &Step, kinds: &Kinds) -> Candidate
    requires step { IsPossible kinds.now (start_of kinds.now) step.now }
    ensures step { result.step ≡ step.now }
    ensures candidate { IsCandidate kinds.now result }
{
    let column = column(step, kinds);
    let gate = gate(&column);
    Candidate {
        step: *step,
        column,
        rows: rows(step, kinds),
        ends: ends(step, &column, kinds),
        p_from: first_on(kinds.p.as_slice(), gate),
        n_from: first_on(kinds.n.as_slice(), gate),
    }
}

// The columns that may come first.
fn list(alloc: Global, kinds: &Kinds) -> Result<Candidates, NoMemory>
    ensures { IfOk result (AreCandidates kinds.now) }
{
    let first = start(alloc, kinds)?;
    let steps = successors(alloc, &first, kinds)?;
    let mut all = Candidates::new(alloc);
    for step in steps.as_slice() {
        all.push(of_step(step, kinds))?;
    }
    Ok(all)
}

/// All columns that the valid states of the kinds allow as their next ones, in order.
#[tactic(auto, using(crate::proofs::Digits::candidates_unfold))]
pub fn candidates(alloc: Global, kinds: &Kinds) -> Result<Candidates, NoMemory>
    ensures candidates { IfOk result (AreCandidates kinds.now) }
    // No valid state allows a column that is not among them, and each completion of one begins with one of them.
    ensures every { IfOk result (λ all. HaveEachNext kinds.now (candidate_steps all)) }
    ensures unfolds { IfOk result (λ all. (s : StateOf) → IsState kinds.now s →
        Unfolds kinds.now s (candidate_steps all)) }
{
    let all = list(alloc, kinds)?;
    Ok(all)
}
