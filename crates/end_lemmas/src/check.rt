ghost use Rattle.std.specs.Prelude.{◌≡◌, ◌↔◌, All, Contains, IfOk, IsTrue, Some, slice_get, true};
ghost use Rattle.end_lemmas.specs.Indexed.{IsIndexOf};
ghost use Rattle.end_lemmas.specs.Justified.{IsFirstUnproved, IsJustified, Reaches};

use crate::{EndLemma, EndSteps, LemmaIndex};
use cell_num::NoMemory;
use std::alloc::Global;

// Whether the bound, less the ends that are certain after the choice, is known.
fn reaches<E: EndSteps>(
    alloc: Global,
    steps: &E,
    earlier: &[EndLemma<E::State>],
    index: &LemmaIndex,
    level: &E::Level,
    lemma: &EndLemma<E::State>,
    choice: &E::Choice,
) -> Result<bool, NoMemory>
    requires level { E.takes steps.now level.now }
    requires state { (E.steps steps.now).fits lemma.now.state ≡ true }
    requires choice { Contains ((E.steps steps.now).choices level.now) choice.now }
    requires index { IsIndexOf E.number_of earlier.now index.now }
    ensures { IfOk result (λ ok. IsTrue ok ↔ Reaches (E.steps steps.now) earlier.now level.now lemma.now choice.now) }
{
    let settled = steps.after(alloc, level, &lemma.state, choice)?;
    let need = u64::from(lemma.bound).saturating_sub(settled.ends);
    let done = u64::from(lemma.done) + 1;
    Ok(index.knows(steps, earlier, done, &settled.state, need))
}

// Whether each choice reaches the lemma's bound.
fn each_reaches<E: EndSteps>(
    alloc: Global,
    steps: &E,
    earlier: &[EndLemma<E::State>],
    index: &LemmaIndex,
    level: &E::Level,
    lemma: &EndLemma<E::State>,
) -> Result<bool, NoMemory>
    requires level { E.takes steps.now level.now }
    requires state { (E.steps steps.now).fits lemma.now.state ≡ true }
    requires index { IsIndexOf E.number_of earlier.now index.now }
    ensures { IfOk result (λ ok. IsTrue ok
        ↔ All (Reaches (E.steps steps.now) earlier.now level.now lemma.now) ((E.steps steps.now).choices level.now)) }
{
    let choices = steps.choices(level);
    for choice in choices {
        if !reaches(alloc, steps, earlier, index, level, lemma, choice)? {
            return Ok(false);
        }
    }
    Ok(true)
}

// Whether the lemma is justified by those before it.
fn is_justified<E: EndSteps>(
    alloc: Global,
    steps: &E,
    levels: &[E::Level],
    earlier: &[EndLemma<E::State>],
    index: &LemmaIndex,
    lemma: &EndLemma<E::State>,
) -> Result<bool, NoMemory>
    requires levels { All (E.takes steps.now) levels.now }
    requires index { IsIndexOf E.number_of earlier.now index.now }
    ensures { IfOk result (λ ok. IsTrue ok ↔ IsJustified (E.steps steps.now) levels.now earlier.now lemma.now) }
{
    if !steps.fits(&lemma.state) {
        return Ok(false);
    }
    match levels.get(lemma.done as usize) {
        Some(level) => each_reaches(alloc, steps, earlier, index, level, lemma),
        None => Ok(false),
    }
}

/// The place of the first lemma that is not justified by those before it; none, where all are. Lemmas are looked up by
/// the numbers of their states, so it takes a step for each choice of a lemma's level.
pub fn first_unproved<E: EndSteps>(
    alloc: Global,
    steps: &E,
    levels: &[E::Level],
    lemmas: &[EndLemma<E::State>],
) -> Result<Option<usize>, NoMemory>
    requires { All (E.takes steps.now) levels.now }
    ensures { IfOk result (IsFirstUnproved (E.steps steps.now) levels.now lemmas.now) }
{
    let mut index = LemmaIndex::new(alloc, steps);
    for (at, lemma) in lemmas.iter().enumerate() {
        let earlier = &lemmas[..at];
        if !is_justified(alloc, steps, levels, earlier, &index, lemma)? {
            return Ok(Some(at));
        }
        index.add(alloc, steps, earlier, lemma)?;
    }
    Ok(None)
}
