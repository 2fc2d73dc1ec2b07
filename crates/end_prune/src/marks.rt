ghost use Rattle.std.specs.Prelude.{◌≡◌, All, Contains, IfOk, OnOk, length, true};
ghost use Rattle.end_lemmas.specs.Indexed.{IsIndexOf};
ghost use Rattle.end_lemmas.specs.Justified.{AreEndsProved, Reaches};
ghost use Rattle.end_prune.specs.Marks.{AreMarkedFor, AreStartMarks, marked};

use cell_num::NoMemory;
use end_lemmas::{EndLemma, EndSteps, LemmaIndex};
use std::alloc::Global;

/// A mark for each lemma: true for one that proves the ends of the start state, if there is one.
pub(crate) fn start_marks<E: EndSteps>(
    alloc: Global,
    steps: &E,
    index: &LemmaIndex,
    lemmas: &[EndLemma<E::State>],
    start: &E::State,
    ends: u32,
) -> Result<Vec<bool>, NoMemory>
    requires index { IsIndexOf E.number_of lemmas.now index.now }
    requires ends { AreEndsProved start.now lemmas.now ends }
    ensures { IfOk result (λ marks. AreStartMarks start.now ends lemmas.now marks.items) }
{
    let mut marks = vec![in alloc; false; lemmas.len()]?;
    if let Some(at) = index.place(steps, lemmas, 0, start, u64::from(ends)) {
        marks[at] = true;
    }
    Ok(marks)
}

// Marks an earlier lemma that says as much as is needed behind the choice.
fn mark_behind<E: EndSteps>(
    alloc: Global,
    steps: &E,
    index: &LemmaIndex,
    earlier: &[EndLemma<E::State>],
    marks: &mut Vec<bool>,
    level: &E::Level,
    lemma: &EndLemma<E::State>,
    choice: &E::Choice,
) -> Result<(), NoMemory>
    requires level { E.takes steps.now level.now }
    requires state { (E.steps steps.now).fits lemma.now.state ≡ true }
    requires choice { Contains ((E.steps steps.now).choices level.now) choice.now }
    requires index { IsIndexOf E.number_of earlier.now index.now }
    requires same { length marks.old.items ≡ length earlier.now }
    requires reached { Reaches (E.steps steps.now) earlier.now level.now lemma.now choice.now }
    ensures more { OnOk result
        (AreMarkedFor (E.steps steps.now) level.now lemma.now earlier.now marks.old.items marks.new.items) }
    ensures reached { OnOk result
        (Reaches (E.steps steps.now) (marked marks.new.items earlier.now) level.now lemma.now choice.now) }
{
    let settled = steps.after(alloc, level, &lemma.state, choice)?;
    let need = u64::from(lemma.bound).saturating_sub(settled.ends);
    if need == 0 {
        return Ok(());
    }
    let done = u64::from(lemma.done) + 1;
    match index.place(steps, earlier, done, &settled.state, need) {
        Some(at) => marks[at] = true,
        None => unreachable!(),
    }
    Ok(())
}

/// Marks earlier lemmas that a lemma rests on, one for each choice of its level that needs one.
pub(crate) fn mark_support<E: EndSteps>(
    alloc: Global,
    steps: &E,
    index: &LemmaIndex,
    earlier: &[EndLemma<E::State>],
    marks: &mut Vec<bool>,
    level: &E::Level,
    lemma: &EndLemma<E::State>,
) -> Result<(), NoMemory>
    requires level { E.takes steps.now level.now }
    requires state { (E.steps steps.now).fits lemma.now.state ≡ true }
    requires index { IsIndexOf E.number_of earlier.now index.now }
    requires same { length marks.old.items ≡ length earlier.now }
    requires reached { All (Reaches (E.steps steps.now) earlier.now level.now lemma.now)
        ((E.steps steps.now).choices level.now) }
    ensures more { OnOk result
        (AreMarkedFor (E.steps steps.now) level.now lemma.now earlier.now marks.old.items marks.new.items) }
    ensures reached { OnOk result (All (Reaches (E.steps steps.now) (marked marks.new.items earlier.now)
        level.now lemma.now) ((E.steps steps.now).choices level.now)) }
{
    for choice in steps.choices(level) {
        mark_behind(alloc, steps, index, earlier, marks, level, lemma, choice)?;
    }
    Ok(())
}
