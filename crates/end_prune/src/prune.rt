ghost use Rattle.std.specs.Prelude.{All, IfOk};
ghost use Rattle.end_lemmas.specs.Indexed.{IsIndexOf};
ghost use Rattle.end_lemmas.specs.Justified.{AreJustified};
ghost use Rattle.end_prune.specs.Pruned.{IsPruned};

use crate::back::kept;
use crate::marks::start_marks;
use cell_num::{List, NoMemory};
use end_lemmas::{EndLemma, EndSteps, LemmaIndex, ends_proved};
use std::alloc::Global;

fn index_of<E: EndSteps>(
    alloc: Global,
    steps: &E,
    lemmas: &[EndLemma<E::State>],
) -> Result<LemmaIndex, NoMemory>
    ensures { IfOk result (IsIndexOf E.number_of lemmas.now) }
{
    let mut index = LemmaIndex::new(alloc, steps);
    for (at, lemma) in lemmas.iter().enumerate() {
        index.add(alloc, steps, &lemmas[..at], lemma)?;
    }
    Ok(index)
}

/// The lemmas without those that no later one rests on, in their order. Of those on the start state, one with the
/// greatest bound stays. Of the others those stay that a later one rests on: for each choice of its level, one earlier
/// lemma that says enough, where one is needed. The state after a choice is made once, for each choice of a level of a
/// lemma that stays.
pub fn pruned<E: EndSteps>(
    alloc: Global,
    steps: &E,
    levels: &[E::Level],
    start: &E::State,
    lemmas: List<EndLemma<E::State>>,
) -> Result<List<EndLemma<E::State>>, NoMemory>
    requires takes { All (E.takes steps.now) levels.now }
    requires justified { AreJustified (E.steps steps.now) levels.now lemmas }
    ensures { IfOk result (IsPruned (E.steps steps.now) levels.now start.now lemmas) }
{
    let all = lemmas.into_vec();
    let slice = all.as_slice();
    let index = index_of(alloc, steps, slice)?;
    let ends = ends_proved(steps, start, slice);
    let marks = start_marks(alloc, steps, &index, slice, start, ends)?;
    let kept = kept(alloc, steps, levels, &index, all, marks)?;
    Ok(kept)
}
