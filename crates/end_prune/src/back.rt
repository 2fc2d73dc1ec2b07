ghost use Rattle.std.specs.Prelude.{◌≡◌, ◌++◌, ◌∷◌, [], ◌<◌, All, IfOk, OnOk, length};
ghost use Rattle.end_lemmas.specs.Indexed.{IsIndexOf};
ghost use Rattle.end_lemmas.specs.Justified.{AreJustified, IsJustified};
ghost use Rattle.end_prune.specs.Marks.{AreKeptFor, IsSupportMarked, marked};

use crate::marks::mark_support;
use cell_num::{List, NoMemory};
use end_lemmas::{EndLemma, EndSteps, LemmaIndex};
use std::alloc::Global;

// Takes the last mark off. It is false, where there is none.
fn take_last(marks: &mut Vec<bool>) -> bool
    ensures { 0 < length marks.old.items → marks.old.items ≡ marks.new.items ++ result ∷ [] }
{
    match marks.pop() {
        Some(mark) => mark,
        None => false,
    }
}

// Marks the lemmas before this one that it rests on.
fn mark_earlier<E: EndSteps>(
    alloc: Global,
    steps: &E,
    levels: &[E::Level],
    index: &LemmaIndex,
    earlier: &[EndLemma<E::State>],
    marks: &mut Vec<bool>,
    lemma: &EndLemma<E::State>,
) -> Result<(), NoMemory>
    requires takes { All (E.takes steps.now) levels.now }
    requires index { IsIndexOf E.number_of earlier.now index.now }
    requires same { length marks.old.items ≡ length earlier.now }
    requires justified { IsJustified (E.steps steps.now) levels.now earlier.now lemma.now }
    ensures { OnOk result (IsSupportMarked (E.steps steps.now) levels.now lemma.now earlier.now marks.old.items
        marks.new.items) }
{
    let Some(level) = levels.get(lemma.done as usize) else {
        unreachable!()
    };
    mark_support(alloc, steps, index, earlier, marks, level, lemma)?;
    Ok(())
}

/// The lemmas that are marked, and those before them that they rest on. Each mark is taken off with its lemma, the last
/// first: by then the lemmas behind it have set all the marks that they need.
pub(crate) fn kept<E: EndSteps>(
    alloc: Global,
    steps: &E,
    levels: &[E::Level],
    index: &LemmaIndex,
    lemmas: Vec<EndLemma<E::State>>,
    marks: Vec<bool>,
) -> Result<List<EndLemma<E::State>>, NoMemory>
    requires takes { All (E.takes steps.now) levels.now }
    requires index { IsIndexOf E.number_of lemmas.items index.now }
    requires same { length marks.items ≡ length lemmas.items }
    requires justified { AreJustified (E.steps steps.now) levels.now lemmas.items }
    ensures { IfOk result (AreKeptFor (E.steps steps.now) levels.now (marked marks.items lemmas.items) lemmas.items) }
{
    let mut left = lemmas;
    let mut marks_left = marks;
    let mut kept = List::new(alloc);
    while let Some(lemma) = left.pop() {
        if take_last(&mut marks_left) {
            mark_earlier(
                alloc,
                steps,
                levels,
                index,
                left.as_slice(),
                &mut marks_left,
                &lemma,
            )?;
            kept.push(lemma)?;
        }
    }
    let mut in_order = kept.into_vec();
    in_order.reverse();
    Ok(List::from_vec(in_order))
}
