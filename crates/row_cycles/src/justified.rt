// Whether a lemma is justified by those before it.
ghost use Rattle.std.specs.Prelude.{◌≡◌, ◌↔◌, ◌++◌, All, IfOk, IsTrue};
ghost use Rattle.row_state.specs.declared.step.Step.{Step as StepOf};
ghost use Rattle.row_state.specs.Candidates.{AreCandidates, IsCandidate, IsNumbered};
ghost use Rattle.row_state.specs.Start.{HasFingers, IsState};
ghost use Rattle.row_state.specs.Steps.{IsPossible};
ghost use Rattle.row_cycles.specs.Above.{HasCycle, HasNets, above_end};
ghost use Rattle.row_cycles.specs.Certificate.{Branches, IsJustified};
ghost use Rattle.row_cycles.specs.Noted.{AreNoted};
ghost use Rattle.row_cycles.specs.Steps.{LeftIsRefuted, StepIsRefuted};

use crate::{
    AboveList, CycleLemma, NetAbove, NotedCycles, add_end, add_step, has_cycle, has_cycle_from,
    left_after,
};
use cell_num::{NoMemory, Pins};
use row_needs::GapBound;
use row_state::{Candidate, Candidates, Kinds, Numbered, has_fingers, is_state};
use std::alloc::Global;

/// What lemmas on cycles may rest on beside earlier ones: the cell, all columns that may ever come next, and a bound
/// on gaps.
#[derive(Clone, Copy)]
pub struct CycleGrounds<'a, B> {
    pub kinds: &'a Kinds,
    pub pins: &'a Pins,
    pub candidates: &'a Candidates,
    pub bound: &'a B,
}

// Whether all nets of the pairs are numbered below that number.
fn have_nets(above: &[NetAbove], nets: u32) -> bool
    ensures { IsTrue result ↔ All (HasNets nets) above.now }
{
    for a in above {
        if !has_nets(a, nets) {
            return false;
        }
    }
    true
}

fn has_nets(a: &NetAbove, nets: u32) -> bool
    ensures { IsTrue result ↔ HasNets nets a.now }
{
    a.upper.0 < nets && a.lower.0 < nets
}

// A list of what the lemma asks for.
fn asked(alloc: Global, lemma: &CycleLemma) -> Result<AboveList, NoMemory>
    ensures { IfOk result (λ above. above ≡ lemma.now.above) }
{
    let mut above = AboveList::new(alloc);
    above.extend(lemma.above.as_slice())?;
    Ok(above)
}

// Whether the state after the column is refuted, with that many gaps left.
fn left_is_refuted<B: GapBound>(
    alloc: Global,
    grounds: &CycleGrounds<B>,
    earlier: &NotedCycles,
    lemma: &CycleLemma,
    from: &Numbered,
    next: &Candidate,
    left: u32,
) -> Result<bool, NoMemory>
    requires nets { All (HasNets grounds.now.kinds.now.nets) lemma.now.above }
    requires none { HasCycle lemma.now.above → ⊥ }
    requires numbered { IsNumbered grounds.now.kinds.now from.now }
    requires state { from.now.state ≡ lemma.now.state }
    requires next { IsCandidate grounds.now.kinds.now next.now }
    requires step { IsPossible grounds.now.kinds.now lemma.now.state next.now.step }
    requires noted { AreNoted grounds.now.kinds.now earlier.now.lemmas.now earlier.now.places.now }
    ensures { IfOk result (λ refuted. IsTrue refuted ↔ LeftIsRefuted (B.value grounds.now.bound.now)
        grounds.now.pins.now grounds.now.kinds.now earlier.now.lemmas.now lemma.now next.now.step left) }
{
    let kinds = grounds.kinds;
    kinds.show_limits();
    let mut above = asked(alloc, lemma)?;
    add_step(&mut above, grounds.pins, &lemma.state, &next.column)?;
    if has_cycle_from(above.as_slice(), lemma.above.len()) {
        return Ok(true);
    }
    let after = from.behind(alloc, kinds, next)?;
    if grounds.bound.needs_more(kinds, &after, left) {
        return Ok(true);
    }
    Ok(earlier.covers(&after, left, above.as_slice()))
}

// Whether the column leaves the lemma justified.
fn step_is_refuted<B: GapBound>(
    alloc: Global,
    grounds: &CycleGrounds<B>,
    earlier: &NotedCycles,
    lemma: &CycleLemma,
    from: &Numbered,
    next: &Candidate,
) -> Result<bool, NoMemory>
    requires nets { All (HasNets grounds.now.kinds.now.nets) lemma.now.above }
    requires none { HasCycle lemma.now.above → ⊥ }
    requires numbered { IsNumbered grounds.now.kinds.now from.now }
    requires state { from.now.state ≡ lemma.now.state }
    requires next { IsCandidate grounds.now.kinds.now next.now }
    requires noted { AreNoted grounds.now.kinds.now earlier.now.lemmas.now earlier.now.places.now }
    ensures { IfOk result (λ refuted. IsTrue refuted ↔ StepIsRefuted (B.value grounds.now.bound.now)
        grounds.now.pins.now grounds.now.kinds.now earlier.now.lemmas.now lemma.now next.now.step) }
{
    let Some(left) = left_after(from, grounds.kinds, next, lemma.gaps) else {
        return Ok(true);
    };
    let refuted = left_is_refuted(alloc, grounds, earlier, lemma, from, next, left)?;
    Ok(refuted)
}

// Whether each next column leaves the lemma justified.
#[tactic(auto, using(crate::proofs::Left::candidate_is))]
fn steps_are_refuted<B: GapBound>(
    alloc: Global,
    grounds: &CycleGrounds<B>,
    earlier: &NotedCycles,
    lemma: &CycleLemma,
    from: &Numbered,
) -> Result<bool, NoMemory>
    requires candidates { AreCandidates grounds.now.kinds.now grounds.now.candidates.now }
    requires nets { All (HasNets grounds.now.kinds.now.nets) lemma.now.above }
    requires none { HasCycle lemma.now.above → ⊥ }
    requires numbered { IsNumbered grounds.now.kinds.now from.now }
    requires state { from.now.state ≡ lemma.now.state }
    requires noted { AreNoted grounds.now.kinds.now earlier.now.lemmas.now earlier.now.places.now }
    ensures { IfOk result (λ refuted. IsTrue refuted ↔ ((step : StepOf) → StepIsRefuted
        (B.value grounds.now.bound.now) grounds.now.pins.now grounds.now.kinds.now earlier.now.lemmas.now lemma.now
        step)) }
{
    for next in grounds.candidates.as_slice() {
        if !step_is_refuted(alloc, grounds, earlier, lemma, from, next)? {
            return Ok(false);
        }
    }
    Ok(true)
}

// Whether a finger is left, or the last line closes a cycle.
fn end_is_refuted(
    alloc: Global,
    kinds: &Kinds,
    pins: &Pins,
    lemma: &CycleLemma,
) -> Result<bool, NoMemory>
    requires valid { IsState kinds.now lemma.now.state }
    requires nets { All (HasNets kinds.now.nets) lemma.now.above }
    ensures { IfOk result (λ refuted. IsTrue refuted ↔ ((HasFingers kinds.now lemma.now.state → ⊥)
        → HasCycle (lemma.now.above ++ above_end pins.now lemma.now.state))) }
{
    kinds.show_limits();
    if has_fingers(&lemma.state) {
        return Ok(true);
    }
    let mut above = asked(alloc, lemma)?;
    add_end(&mut above, pins, &lemma.state)?;
    Ok(has_cycle(above.as_slice()))
}

// Whether each next column leaves the lemma justified, and the end of a row does.
fn branches<B: GapBound>(
    alloc: Global,
    grounds: &CycleGrounds<B>,
    earlier: &NotedCycles,
    lemma: &CycleLemma,
    from: &Numbered,
) -> Result<bool, NoMemory>
    requires candidates { AreCandidates grounds.now.kinds.now grounds.now.candidates.now }
    requires nets { All (HasNets grounds.now.kinds.now.nets) lemma.now.above }
    requires numbered { IsNumbered grounds.now.kinds.now from.now }
    requires state { from.now.state ≡ lemma.now.state }
    requires noted { AreNoted grounds.now.kinds.now earlier.now.lemmas.now earlier.now.places.now }
    ensures { IfOk result (λ refuted. IsTrue refuted ↔ Branches (B.value grounds.now.bound.now) grounds.now.pins.now
        grounds.now.kinds.now earlier.now.lemmas.now lemma.now) }
{
    grounds.kinds.show_limits();
    if has_cycle(lemma.above.as_slice()) {
        return Ok(true);
    }
    if !end_is_refuted(alloc, grounds.kinds, grounds.pins, lemma)? {
        return Ok(false);
    }
    let refuted = steps_are_refuted(alloc, grounds, earlier, lemma, from)?;
    Ok(refuted)
}

/// Whether the lemma is justified by the earlier ones.
pub fn is_justified<B: GapBound>(
    alloc: Global,
    grounds: &CycleGrounds<B>,
    earlier: &NotedCycles,
    lemma: &CycleLemma,
) -> Result<bool, NoMemory>
    requires candidates { AreCandidates grounds.now.kinds.now grounds.now.candidates.now }
    requires noted { AreNoted grounds.now.kinds.now earlier.now.lemmas.now earlier.now.places.now }
    ensures { IfOk result (λ yes. IsTrue yes ↔ IsJustified (B.value grounds.now.bound.now) grounds.now.pins.now
        grounds.now.kinds.now earlier.now.lemmas.now lemma.now) }
{
    let kinds = grounds.kinds;
    if !is_state(&lemma.state, kinds) {
        return Ok(false);
    }
    if !have_nets(lemma.above.as_slice(), kinds.nets) {
        return Ok(false);
    }
    let state = lemma.state.copied()?;
    let from = Numbered::new(state, kinds);
    if grounds.bound.needs_more(kinds, &from, lemma.gaps) {
        return Ok(true);
    }
    let refuted = branches(alloc, grounds, earlier, lemma, &from)?;
    Ok(refuted)
}
