// Which of the pairs that lines ask for the refutation of a next column needs: the fewer a lemma asks for, the more it
// is about.
ghost use Rattle.std.specs.Prelude.{◌≡◌, ◌↔◌, ◌≤◌, ◌++◌, Any, IfOk, IsTrue, OnOk};
ghost use Rattle.row_cycles.specs.Certificate.{Covers};
ghost use Rattle.cycle_search.specs.Below.{IsSound};
ghost use Rattle.cycle_search.specs.Ways.{AddsNeeded};

use crate::ahead::Ahead;
use crate::asked::Asked;
use crate::ways::add_ways;
use cell_num::NoMemory;
use row_cycles::{AboveList, CycleLemma, NotedCycles};
use row_state::State;
use std::alloc::Global;

fn is_same(a: &State, b: &State) -> bool
    ensures { IsTrue result ↔ (a.now ≡ b.now) }
{
    a == b
}

// Whether the lemma is on the state that is ahead, and the table has all that it asks for.
fn is_about(lemma: &CycleLemma, ahead: &Ahead) -> bool
    ensures gaps { IsTrue result → ahead.now.left ≤ lemma.now.gaps }
    ensures state { IsTrue result → lemma.now.state ≡ ahead.now.state.state }
{
    if lemma.gaps < ahead.left {
        return false;
    }
    if !ahead.asked.below.has_all(lemma.above.as_slice()) {
        return false;
    }
    is_same(&lemma.state, &ahead.state.state)
}

// Adds what the lemma needs, where it is about what is ahead.
fn add_lemma(
    alloc: Global,
    lemma: &CycleLemma,
    asked: &Asked,
    ahead: &Ahead,
    need: &mut AboveList,
) -> Result<bool, NoMemory>
    requires sound { IsSound asked.now.pairs asked.now.below }
    ensures adds { OnOk result (AddsNeeded asked.now.pairs need.old need.new) }
    ensures covers { IfOk result (λ found. IsTrue found → Covers ahead.now.state.state ahead.now.left
        (need.new ++ ahead.now.new) lemma.now) }
{
    if !is_about(lemma, ahead) {
        return Ok(false);
    }
    let found = add_ways(
        alloc,
        asked,
        ahead.new.as_slice(),
        lemma.above.as_slice(),
        need,
    )?;
    Ok(found)
}

// The same for the lemma at a place.
#[tactic(auto, using(row_cycles::proofs::Refuted::covered_there, crate::proofs::Needs::adds_none))]
fn add_at(
    alloc: Global,
    lemmas: &[CycleLemma],
    at: usize,
    asked: &Asked,
    ahead: &Ahead,
    need: &mut AboveList,
) -> Result<bool, NoMemory>
    requires sound { IsSound asked.now.pairs asked.now.below }
    ensures adds { OnOk result (AddsNeeded asked.now.pairs need.old need.new) }
    ensures covers { IfOk result (λ found. IsTrue found → Any (Covers ahead.now.state.state ahead.now.left
        (need.new ++ ahead.now.new)) lemmas.now) }
{
    match lemmas.get(at) {
        Some(lemma) => {
            let found = add_lemma(alloc, lemma, asked, ahead, need)?;
            Ok(found)
        }
        None => Ok(false),
    }
}

/// Adds what the first lemma needs that is about what is ahead, if it finds one.
pub(crate) fn add_known(
    alloc: Global,
    known: &NotedCycles,
    asked: &Asked,
    ahead: &Ahead,
    need: &mut AboveList,
) -> Result<bool, NoMemory>
    requires sound { IsSound asked.now.pairs asked.now.below }
    ensures adds { OnOk result (AddsNeeded asked.now.pairs need.old need.new) }
    ensures covers { IfOk result (λ found. IsTrue found → Any (Covers ahead.now.state.state ahead.now.left
        (need.new ++ ahead.now.new)) known.now.lemmas.now) }
{
    for place in known.places.at(ahead.state.code) {
        if add_at(alloc, known.lemmas, *place, asked, ahead, need)? {
            return Ok(true);
        }
    }
    Ok(false)
}
