// A next column that the gaps allow and that no lemma refutes.
ghost use Rattle.std.specs.Prelude.{◌≡◌, ◌↔◌, ◌++◌, All, Any, IfNone, IfOk, IfSome, IsTrue, List, OnOk, false};
ghost use Rattle.row_state.specs.Candidates.{IsCandidate, IsNumbered};
ghost use Rattle.row_state.specs.Start.{HasFingers};
ghost use Rattle.row_state.specs.Steps.{IsPossible, state_after};
ghost use Rattle.row_cycles.specs.declared.lemma.CycleLemma.{CycleLemma as LemmaOf};
ghost use Rattle.row_cycles.specs.Certificate.{Covers, IsRefuted};
ghost use Rattle.row_cycles.specs.Above.{HasCycle, HasNets, above_end, above_step};
ghost use Rattle.row_cycles.specs.Steps.{StepIsRefuted};
ghost use Rattle.cycle_search.specs.Below.{IsAsked, IsSound};
ghost use Rattle.cycle_search.specs.Visit.{EndsFree, IsAhead, IsOpen, lemma_at};
ghost use Rattle.cycle_search.specs.Ways.{AddsNeeded};

use crate::asked::Asked;
use crate::needed::add_known;
use crate::ways::add_cycle;
use cell_num::{NoMemory, Pins};
use row_cycles::{AboveList, NetAbove, NotedCycles, add_end, add_step, has_cycle};
use row_needs::GapBound;
use row_state::{Candidate, Candidates, Kinds, Numbered, has_fingers};
use std::alloc::Global;

/// What a search is given.
#[derive(Clone, Copy)]
pub(crate) struct Task<'a, B> {
    pub alloc: Global,
    pub kinds: &'a Kinds,
    pub pins: &'a Pins,
    /// All columns that may come next in some state.
    pub candidates: &'a Candidates,
    pub bound: &'a B,
    /// The most gaps of a row.
    pub gaps: u32,
    /// The most lemmas.
    pub budget: u64,
}

/// The state after a next column.
#[derive(Drop)]
pub(crate) struct Ahead {
    pub state: Numbered,
    /// How many gaps are allowed after the column.
    pub left: u32,
    /// What the lines from the state before up to the column ask for.
    pub new: AboveList,
    /// What all lines up to the state ask for.
    pub asked: Asked,
}

// What the lines from the state up to the column ask for.
fn new_pairs<B: GapBound>(
    task: &Task<B>,
    at: &Numbered,
    next: &Candidate,
) -> Result<AboveList, NoMemory>
    requires numbered { IsNumbered task.now.kinds.now at.now }
    requires next { IsCandidate task.now.kinds.now next.now }
    ensures is { IfOk result (λ new. new
        ≡ above_step task.now.pins.now task.now.kinds.now at.now.state next.now.step) }
    ensures nets { IfOk result (All (HasNets task.now.kinds.now.nets)) }
{
    task.kinds.show_limits();
    let mut new = AboveList::new(task.alloc);
    add_step(&mut new, task.pins, &at.state, &next.column)?;
    Ok(new)
}

// What is ahead where neither a bound nor a cycle refutes it. Else it adds what the cycle needs.
fn reached<B: GapBound>(
    task: &Task<B>,
    at: &Numbered,
    asked: &Asked,
    next: &Candidate,
    left: u32,
    need: &mut AboveList,
) -> Result<Option<Ahead>, NoMemory>
    requires numbered { IsNumbered task.now.kinds.now at.now }
    requires next { IsCandidate task.now.kinds.now next.now }
    requires step { IsPossible task.now.kinds.now at.now.state next.now.step }
    requires asked { IsAsked task.now.kinds.now.nets asked.now }
    ensures adds { OnOk result (AddsNeeded asked.now.pairs need.old need.new) }
    ensures none { IfOk result (λ ahead. IfNone ahead ((lemmas : List LemmaOf) → IsRefuted
        (B.value task.now.bound.now) task.now.kinds.now lemmas
        (state_after task.now.kinds.now at.now.state next.now.step) left
        (need.new ++ above_step task.now.pins.now task.now.kinds.now at.now.state next.now.step))) }
    ensures some { IfOk result (λ ahead. IfSome ahead (IsOpen task.now.pins.now task.now.kinds.now at.now.state
        asked.now.pairs left next.now.step)) }
{
    task.kinds.show_limits();
    let state = at.behind(task.alloc, task.kinds, next)?;
    if task.bound.needs_more(task.kinds, &state, left) {
        return Ok(None);
    }
    let new = new_pairs(task, at, next)?;
    if add_cycle(task.alloc, asked, new.as_slice(), need)? {
        return Ok(None);
    }
    let onward = asked.with(task.alloc, new.as_slice())?;
    Ok(Some(Ahead {
        state,
        left,
        new,
        asked: onward,
    }))
}

// What is ahead where no lemma refutes it either. Else it adds what the lemma needs.
fn open_ahead<B: GapBound>(
    task: &Task<B>,
    known: &NotedCycles,
    at: &Numbered,
    asked: &Asked,
    next: &Candidate,
    left: u32,
    need: &mut AboveList,
) -> Result<Option<Ahead>, NoMemory>
    requires numbered { IsNumbered task.now.kinds.now at.now }
    requires next { IsCandidate task.now.kinds.now next.now }
    requires step { IsPossible task.now.kinds.now at.now.state next.now.step }
    requires asked { IsAsked task.now.kinds.now.nets asked.now }
    ensures adds { OnOk result (AddsNeeded asked.now.pairs need.old need.new) }
    ensures none { IfOk result (λ ahead. IfNone ahead (IsRefuted (B.value task.now.bound.now) task.now.kinds.now
        known.now.lemmas.now (state_after task.now.kinds.now at.now.state next.now.step) left
        (need.new ++ above_step task.now.pins.now task.now.kinds.now at.now.state next.now.step))) }
    ensures some { IfOk result (λ ahead. IfSome ahead (IsOpen task.now.pins.now task.now.kinds.now at.now.state
        asked.now.pairs left next.now.step)) }
{
    let Some(ahead) = reached(task, at, asked, next, left, need)? else {
        return Ok(None);
    };
    if add_known(task.alloc, known, asked, &ahead, need)? {
        return Ok(None);
    }
    Ok(Some(ahead))
}

/// The state after the column, or none where the column may not come next, needs more gaps than are allowed, or is
/// refuted: by a bound, by a cycle or by a lemma. Then it adds the pairs that the refutation needs.
pub(crate) fn state_ahead<B: GapBound>(
    task: &Task<B>,
    known: &NotedCycles,
    at: &Numbered,
    asked: &Asked,
    next: &Candidate,
    allowed: u32,
    need: &mut AboveList,
) -> Result<Option<Ahead>, NoMemory>
    requires numbered { IsNumbered task.now.kinds.now at.now }
    requires next { IsCandidate task.now.kinds.now next.now }
    requires asked { IsAsked task.now.kinds.now.nets asked.now }
    ensures adds { OnOk result (AddsNeeded asked.now.pairs need.old need.new) }
    ensures none { IfOk result (λ ahead. IfNone ahead (StepIsRefuted (B.value task.now.bound.now) task.now.pins.now
        task.now.kinds.now known.now.lemmas.now (lemma_at at.now.state allowed need.new) next.now.step)) }
    ensures some { IfOk result (λ ahead. IfSome ahead (IsAhead task.now.pins.now task.now.kinds.now at.now.state
        asked.now.pairs allowed next.now.step)) }
{
    if !at.allows(task.kinds, next) {
        return Ok(None);
    }
    let cost = at.cost(next);
    if allowed < cost {
        return Ok(None);
    }
    let left = allowed - cost;
    let ahead = open_ahead(task, known, at, asked, next, left, need)?;
    Ok(ahead)
}

/// Adds what the refutation of the column needs, where a lemma is about what is ahead.
pub(crate) fn add_failed(
    alloc: Global,
    known: &NotedCycles,
    asked: &Asked,
    ahead: &Ahead,
    need: &mut AboveList,
) -> Result<(), NoMemory>
    requires sound { IsSound asked.now.pairs asked.now.below }
    requires onward { ahead.now.asked.pairs ≡ asked.now.pairs ++ ahead.now.new }
    requires covered { Any (Covers ahead.now.state.state ahead.now.left ahead.now.asked.pairs) known.now.lemmas.now }
    ensures adds { OnOk result (AddsNeeded asked.now.pairs need.old need.new) }
    ensures covers { OnOk result (Any (Covers ahead.now.state.state ahead.now.left (need.new ++ ahead.now.new))
        known.now.lemmas.now) }
{
    if add_known(alloc, known, asked, ahead, need)? {
        return Ok(());
    }
    // all pairs surely suffice
    need.extend(asked.pairs.as_slice())?;
    Ok(())
}

// Whether the last line closes a cycle with what the lines before ask for.
fn ends_in_cycle<B: GapBound>(
    task: &Task<B>,
    at: &Numbered,
    asked: &Asked,
    new: &[NetAbove],
) -> Result<bool, NoMemory>
    requires numbered { IsNumbered task.now.kinds.now at.now }
    requires asked { IsAsked task.now.kinds.now.nets asked.now }
    requires new { new.now ≡ above_end task.now.pins.now at.now.state }
    ensures { IfOk result (λ r. IsTrue r ↔ HasCycle (asked.now.pairs ++ above_end task.now.pins.now at.now.state)) }
{
    task.kinds.show_limits();
    let all = asked.pairs_with(task.alloc, new)?;
    Ok(has_cycle(all.as_slice()))
}

/// Whether no finger is left and the last line closes no cycle. Where it closes one, it adds the pairs that the cycle
/// needs.
pub(crate) fn ends<B: GapBound>(
    task: &Task<B>,
    at: &Numbered,
    asked: &Asked,
    need: &mut AboveList,
) -> Result<bool, NoMemory>
    requires numbered { IsNumbered task.now.kinds.now at.now }
    requires asked { IsAsked task.now.kinds.now.nets asked.now }
    ensures adds { OnOk result (AddsNeeded asked.now.pairs need.old need.new) }
    ensures yes { IfOk result (λ r. IsTrue r
        → EndsFree task.now.pins.now task.now.kinds.now at.now.state asked.now.pairs) }
    ensures no { IfOk result (λ r. r ≡ false → (HasFingers task.now.kinds.now at.now.state → ⊥)
        → HasCycle (need.new ++ above_end task.now.pins.now at.now.state)) }
{
    if has_fingers(&at.state) {
        return Ok(false);
    }
    let mut new = AboveList::new(task.alloc);
    add_end(&mut new, task.pins, &at.state)?;
    if !ends_in_cycle(task, at, asked, new.as_slice())? {
        return Ok(true);
    }
    if add_cycle(task.alloc, asked, new.as_slice(), need)? {
        return Ok(false);
    }
    // all pairs surely suffice
    need.extend(asked.pairs.as_slice())?;
    Ok(false)
}
