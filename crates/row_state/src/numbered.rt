ghost use Rattle.std.specs.Prelude.{◌≡◌, ◌<◌, ◌↔◌, IfOk, IfSome, IsTrue, length};
ghost use Rattle.row_state.specs.Candidates.{IsCandidate, IsNumbered, gate_of_candidate};
ghost use Rattle.row_state.specs.Candidates.{may_stand as may_stand_in};
ghost use Rattle.row_state.specs.Code.{state_code};
ghost use Rattle.row_state.specs.Completion.{cost_of};
ghost use Rattle.row_state.specs.Decoded.{rows_code};
ghost use Rattle.row_state.specs.declared.kind.Kinds.{Kinds as KindsOf};
ghost use Rattle.row_state.specs.Start.{IsState};
ghost use Rattle.row_state.specs.Steps.{IsPossible, column_of, state_after};
ghost use Rattle.row_state.specs.Tests.{gate_left, half_test, side_left};

use crate::candidate::gate;
use crate::coding::{code_of_rows, rows_number};
use crate::gate::{OnGate, on_gate};
use crate::step::column_cost;
use crate::{Candidate, Kinds, Side, State, after};
use cell_num::NoMemory;
use std::alloc::Global;

/// A state with its number.
#[derive(Debug, Drop)]
pub struct Numbered {
    pub state: State,
    /// The number of its counts.
    pub counts: u64,
    /// Its own number.
    pub code: u128,
}

fn is_left(left: &[u32], side: &Option<Side>) -> bool
    requires { IfSome side.now (λ side. side.kind < length left.now) }
    ensures { result ≡ side_left left.now side.now }
{
    match side {
        Some(side) => left[side.kind as usize] > 0,
        None => true,
    }
}

// The kinds on the gate of the column.
#[tactic(auto, using(crate::proofs::Valid::p_fits, crate::proofs::Valid::n_fits))]
fn on_its_gate(state: &State, kinds: &Kinds, next: &Candidate) -> OnGate
    requires state { IsState kinds.now state.now }
    requires next { IsCandidate kinds.now next.now }
    ensures p { result.p.left ≡ gate_left kinds.now.p state.now.p_left (gate_of_candidate next.now) }
    ensures n { result.n.left ≡ gate_left kinds.now.n state.now.n_left (gate_of_candidate next.now) }
{
    on_gate(state, kinds, gate(&next.column), next.p_from, next.n_from)
}

// Whether a half column has more fingers left on its gate in its row than in the other.
fn half_stands(state: &State, kinds: &Kinds, next: &Candidate) -> bool
    requires state { IsState kinds.now state.now }
    requires next { IsCandidate kinds.now next.now }
    ensures { result ≡ half_test next.now.column.p next.now.column.n (gate_left kinds.now.p state.now.p_left
        (gate_of_candidate next.now)) (gate_left kinds.now.n state.now.n_left (gate_of_candidate next.now)) }
{
    match (&next.column.p, &next.column.n) {
        (Some(_), None) => {
            let on = on_its_gate(state, kinds, next);
            on.n.left < on.p.left
        }
        (None, Some(_)) => {
            let on = on_its_gate(state, kinds, next);
            on.p.left < on.n.left
        }
        _ => true,
    }
}

#[tactic(auto, using(crate::proofs::Digits::sides_within))]
fn stands(state: &State, kinds: &Kinds, next: &Candidate) -> bool
    requires state { IsState kinds.now state.now }
    requires next { IsCandidate kinds.now next.now }
    ensures { result ≡ may_stand_in kinds.now state.now next.now }
{
    is_left(state.p_left.as_slice(), &next.step.p)
        && is_left(state.n_left.as_slice(), &next.step.n)
        && half_stands(state, kinds, next)
}

impl Numbered {
    /// The state with its numbers.
    pub fn new(state: State, kinds: &Kinds) -> Numbered
        requires state { IsState kinds.now state }
        ensures state { result.state ≡ state }
        ensures numbered { IsNumbered kinds.now result }
    {
        let counts = rows_number(&state, kinds);
        let code = code_of_rows(counts, &state, kinds);
        Numbered {
            state,
            counts,
            code,
        }
    }

    /// Whether the column may come next.
    #[tactic(auto, using(crate::proofs::Digits::stands_decide))]
    pub fn allows(&self, kinds: &Kinds, next: &Candidate) -> bool
        requires numbered { IsNumbered kinds.now self.now }
        requires next { IsCandidate kinds.now next.now }
        ensures { IsTrue result ↔ IsPossible kinds.now self.now.state next.now.step }
    {
        stands(&self.state, kinds, next)
    }

    /// 1 where the column fills a row after an open end of another net, else 0.
    #[tactic(auto, using(crate::proofs::Digits::cost_is))]
    pub fn cost(&self, next: &Candidate) -> u32
        ensures { (k : KindsOf) → IsCandidate k next.now → result ≡ cost_of self.now.state (column_of k next.now.step) }
    {
        column_cost(&self.state, &next.column)
    }

    // The number of the counts after a column that may come next.
    #[tactic(auto, using(crate::proofs::Digits::counts_less))]
    fn counts_behind(&self, kinds: &Kinds, next: &Candidate) -> u64
        requires numbered { IsNumbered kinds.now self.now }
        requires next { IsCandidate kinds.now next.now }
        requires step { IsPossible kinds.now self.now.state next.now.step }
        ensures { result ≡ rows_code kinds.now (state_after kinds.now self.now.state next.now.step) }
    {
        self.counts - next.rows
    }

    /// The number of the state after a column that may come next.
    #[tactic(auto, using(crate::proofs::Rules::code_behind_rules))]
    pub fn code_behind(&self, kinds: &Kinds, next: &Candidate) -> u128
        requires numbered { IsNumbered kinds.now self.now }
        requires next { IsCandidate kinds.now next.now }
        requires step { IsPossible kinds.now self.now.state next.now.step }
        ensures { result ≡ state_code kinds.now (state_after kinds.now self.now.state next.now.step) }
    {
        let nets = u64::from(kinds.nets) + 1;
        let counts = self.counts_behind(kinds, next);
        u128::from(counts) * u128::from(nets * nets) + u128::from(next.ends)
    }

    /// The state after a column that may come next.
    #[tactic(auto, using(crate::proofs::Digits::numbered_behind))]
    pub fn behind(
        &self,
        alloc: Global,
        kinds: &Kinds,
        next: &Candidate,
    ) -> Result<Numbered, NoMemory>
        requires numbered { IsNumbered kinds.now self.now }
        requires next { IsCandidate kinds.now next.now }
        requires step { IsPossible kinds.now self.now.state next.now.step }
        ensures state { IfOk result (λ behind. behind.state ≡ state_after kinds.now self.now.state next.now.step) }
        ensures numbered { IfOk result (IsNumbered kinds.now) }
    {
        kinds.show_limits();
        Ok(Numbered {
            state: after(alloc, &self.state, &next.step, kinds)?,
            counts: self.counts_behind(kinds, next),
            code: self.code_behind(kinds, next),
        })
    }
}
