// A table of the needs of states, by what is left of the fingers.
ghost use Rattle.std.specs.Prelude.{◌≡◌, ◌≤◌, ◌+◌, ℕ, IfErr, IfNone, IfOk, IfSome, OnOk, Some, false, nat_eq};
ghost use Rattle.cell_num.specs.declared.halt.Halt.TheVariants.{Spent};
ghost use Rattle.row_state.specs.declared.kind.Kinds.{Kinds as KindsOf};
ghost use Rattle.row_state.specs.Completion.{left_in};
ghost use Rattle.std.specs.HashMap.{get, hash_map_len};
ghost use Rattle.std.specs.Option.{option_map};
ghost use Rattle.row_state.specs.Candidates.{AreCandidates, IsCandidate, IsNumbered};
ghost use Rattle.row_state.specs.Start.{columns_left, start_of};
ghost use Rattle.row_state.specs.Steps.{IsPossible, state_after};
ghost use Rattle.row_needs.specs.declared.rest.Rest.{Rest as RestOf};
ghost use Rattle.row_needs.specs.Best.{AddsBelow, IsBest, IsGrown};
ghost use Rattle.row_needs.specs.Many.{IsLedTo, ManyRests};
ghost use Rattle.row_needs.specs.Need.{IsNeed};
ghost use Rattle.row_needs.specs.Rest.{AreRests, HasRest, IsClosed, IsRest, need_at, need_behind};
ghost use Rattle.row_needs.specs.Table.{AreLedTo};

use crate::{LeftEnds, Rest};
use cell_num::{Halt, NetNo, NoMemory};
use row_state::{Candidate, Candidates, Kinds, Numbered, candidates, has_fingers, start};
use row_trails::end_behind;
use std::alloc::Global;
use std::collections::HashMap;

/// The rows with the fewest gaps of what states have left, by the number of their counts.
#[derive(Drop)]
pub struct Needs {
    pub rests: HashMap<u64, Rest>,
}

// What a search for needs is given.
#[derive(Clone, Copy)]
struct Task<'a> {
    alloc: Global,
    kinds: &'a Kinds,
    /// All columns that may come next in some state.
    candidates: &'a Candidates,
    /// The most entries of the table.
    limit: usize,
}

impl Needs {
    // Of no state yet.
    fn none(alloc: Global) -> Needs
        ensures sound { (k : KindsOf) → AreRests k result }
        ensures closed { (k : KindsOf) → IsClosed k result }
        ensures led { (k : KindsOf) → AreLedTo k result }
        ensures empty { hash_map_len result.rests ≡ 0 }
    {
        Needs {
            rests: HashMap::new(alloc),
        }
    }

    // The rows of what is left in the state, more.
    fn add(&mut self, kinds: &Kinds, at: &Numbered, rest: Rest) -> Result<(), Halt>
        requires numbered { IsNumbered kinds.now at.now }
        requires rest { IsRest (left_in kinds.now at.now.state) rest }
        requires few { rest.gaps ≤ 32 }
        requires sound { AreRests kinds.now self.old }
        ensures sound { OnOk result (AreRests kinds.now self.new) }
        ensures here { OnOk result (get nat_eq self.new.rests at.now.counts ≡ Some rest) }
        ensures others { OnOk result ((q : ℕ) → nat_eq at.now.counts q ≡ false
            → get nat_eq self.new.rests q ≡ get nat_eq self.old.rests q) }
        ensures one_more { OnOk result (hash_map_len self.new.rests ≤ hash_map_len self.old.rests + 1) }
        ensures unspent { IfErr result (λ halt. halt ≡ Spent → ⊥) }
    {
        match self.rests.insert(at.counts, rest) {
            Ok(_) => Ok(()),
            Err(_) => Err(Halt::NoMemory),
        }
    }

    // The fewest gaps behind a column with these open ends, where the table has the rows of these counts.
    fn read_behind(&self, counts: u64, p_end: Option<NetNo>, n_end: Option<NetNo>) -> Option<u32>
        requires few { (rest : RestOf) → get nat_eq self.now.rests counts ≡ Some rest → rest.gaps ≤ 32 }
        ensures { result ≡ option_map (need_behind p_end n_end) (get nat_eq self.now.rests counts) }
    {
        let rest = self.rests.get(&counts)?;
        Some(rest.need_behind(p_end, n_end))
    }

    /// The need of the state by the rows of what it has left, where the table has them.
    pub(crate) fn read(&self, at: &Numbered) -> Option<u32>
        requires few { (rest : RestOf) → get nat_eq self.now.rests at.now.counts ≡ Some rest → rest.gaps ≤ 32 }
        ensures { result ≡ option_map (need_at at.now.state) (get nat_eq self.now.rests at.now.counts) }
    {
        self.read_behind(at.counts, at.state.p_end, at.state.n_end)
    }

    // The need of the state after the column, where the table has what it leaves. That state is not made.
    fn after(&self, kinds: &Kinds, at: &Numbered, next: &Candidate) -> Option<u32>
        requires numbered { IsNumbered kinds.now at.now }
        requires next { IsCandidate kinds.now next.now }
        requires step { IsPossible kinds.now at.now.state next.now.step }
        requires sound { AreRests kinds.now self.now }
        ensures need { IfSome result (IsNeed kinds.now (state_after kinds.now at.now.state next.now.step)) }
        ensures here { IfSome result (λ _. HasRest kinds.now self.now
            (state_after kinds.now at.now.state next.now.step)) }
    {
        kinds.show_limits();
        let counts = at.counts - next.rows;
        self.read_behind(
            counts,
            end_behind(&next.column.p),
            end_behind(&next.column.n),
        )
    }

    /// The need of the state, where the table has what it has left.
    pub fn of(&self, kinds: &Kinds, at: &Numbered) -> Option<u32>
        requires numbered { IsNumbered kinds.now at.now }
        requires sound { AreRests kinds.now self.now }
        ensures need { IfSome result (IsNeed kinds.now at.now.state) }
        ensures here { IfSome result (λ _. HasRest kinds.now self.now at.now.state) }
        ensures none { IfNone result (HasRest kinds.now self.now at.now.state → ⊥) }
    {
        self.read(at)
    }
}

// The rows of what the state has left, once all next columns were looked at.
fn finished(task: &Task, at: &Numbered, mut rest: Rest) -> Result<Rest, NoMemory>
    requires candidates { AreCandidates task.now.kinds.now task.now.candidates.now }
    requires numbered { IsNumbered task.now.kinds.now at.now }
    requires few { columns_left task.now.kinds.now at.now.state ≤ 32 }
    requires best { IsBest task.now.kinds.now at.now.state task.now.candidates.now rest }
    ensures rest { IfOk result (IsRest (left_in task.now.kinds.now at.now.state)) }
    ensures few { IfOk result (λ r. r.gaps ≤ 32) }
{
    task.kinds.show_limits();
    if has_fingers(&at.state) {
        return Ok(rest);
    }
    // the row without columns
    rest.take(task.alloc, 0, LeftEnds::none())?;
    Ok(rest)
}

// The need of the state. The table then has the rows of what it has left.
fn need(task: &Task, needs: &mut Needs, at: &Numbered) -> Result<u32, Halt>
    requires candidates { AreCandidates task.now.kinds.now task.now.candidates.now }
    requires numbered { IsNumbered task.now.kinds.now at.now }
    requires few { columns_left task.now.kinds.now at.now.state ≤ 32 }
    requires sound { AreRests task.now.kinds.now needs.old }
    requires closed { IsClosed task.now.kinds.now needs.old }
    requires led { IsLedTo task.now.kinds.now at.now.state }
    requires all_led { AreLedTo task.now.kinds.now needs.old }
    requires within { hash_map_len needs.old.rests ≤ task.now.limit }
    ensures sound { OnOk result (AreRests task.now.kinds.now needs.new) }
    ensures closed { OnOk result (IsClosed task.now.kinds.now needs.new) }
    ensures all_led { OnOk result (AreLedTo task.now.kinds.now needs.new) }
    ensures grown { OnOk result (IsGrown task.now.kinds.now needs.old needs.new) }
    ensures below { OnOk result (AddsBelow task.now.kinds.now (columns_left task.now.kinds.now at.now.state + 1)
        needs.old needs.new) }
    ensures within { OnOk result (hash_map_len needs.new.rests ≤ task.now.limit) }
    ensures here { OnOk result (HasRest task.now.kinds.now needs.new at.now.state) }
    ensures need { IfOk result (IsNeed task.now.kinds.now at.now.state) }
    ensures spent { IfErr result (λ halt. halt ≡ Spent → ManyRests task.now.kinds.now task.now.limit) }
{
    task.kinds.show_limits();
    if let Some(need) = needs.of(task.kinds, at) {
        return Ok(need);
    }
    let mut rest = Rest::unknown(task.alloc);
    for next in task.candidates.as_slice() {
        if !at.allows(task.kinds, next) {
            continue;
        }
        let gaps = match needs.after(task.kinds, at, next) {
            Some(gaps) => gaps,
            None => {
                let after = at.behind(task.alloc, task.kinds, next)?;
                need(task, needs, &after)?
            }
        };
        rest.take(task.alloc, gaps, LeftEnds::before(&next.column))?;
    }
    let rest = finished(task, at, rest)?;
    let need = rest.need(&at.state);
    if task.limit <= needs.rests.len() {
        return Err(Halt::Spent);
    }
    needs.add(task.kinds, at, rest)?;
    Ok(need)
}

impl Needs {
    /// The needs of the states that next columns lead to from the start state. It is spent where these states have more
    /// different leftovers than the limit.
    pub fn new(alloc: Global, kinds: &Kinds, limit: usize) -> Result<Needs, Halt>
        ensures sound { IfOk result (AreRests kinds.now) }
        ensures start { IfOk result (λ needs. HasRest kinds.now needs (start_of kinds.now)) }
        ensures closed { IfOk result (IsClosed kinds.now) }
        ensures led { IfOk result (AreLedTo kinds.now) }
        ensures few { IfOk result (λ _. ManyRests kinds.now limit → ⊥) }
        ensures spent { IfErr result (λ halt. halt ≡ Spent → ManyRests kinds.now limit) }
    {
        kinds.show_limits();
        let candidates = candidates(alloc, kinds)?;
        let task = Task {
            alloc,
            kinds,
            candidates: &candidates,
            limit,
        };
        let first = Numbered::new(start(alloc, kinds)?, kinds);
        let mut needs = Needs::none(alloc);
        need(&task, &mut needs, &first)?;
        Ok(needs)
    }
}
