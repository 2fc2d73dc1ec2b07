ghost use Rattle.std.specs.Prelude.{◌≡◌, ◌≤◌, ◌++◌, ◌∷◌, ◌↔◌, [], IsTrue, OnOk};
ghost use Rattle.end_lemmas.specs.Indexed.{IsIndexOf};
ghost use Rattle.end_lemmas.specs.Justified.{IsKnown};
ghost use Rattle.end_search.specs.Search.{lemma_of};

use cell_num::{List, NoMemory};
use end_lemmas::{EndLemma, EndSteps, LemmaIndex};
use std::alloc::Global;

/// The lemmas that a search has kept, where they stand, and the units of its budget that are left.
#[derive(Drop)]
pub(crate) struct Progress<S> {
    pub lemmas: List<EndLemma<S>>,
    pub index: LemmaIndex,
    pub left: u64,
}

/// No lemma is kept, and the whole budget is left.
pub(crate) fn begin<E: EndSteps>(alloc: Global, steps: &E, budget: u64) -> Progress<E::State>
    ensures lemmas { result.lemmas ≡ [] }
    ensures indexed { IsIndexOf E.number_of [] result.index }
    ensures left { result.left ≡ budget }
{
    Progress {
        lemmas: List::new(alloc),
        index: LemmaIndex::new(alloc, steps),
        left: budget,
    }
}

/// Whether so many ends more are known to come from the state after so many levels on.
pub(crate) fn knows<E: EndSteps>(
    steps: &E,
    progress: &Progress<E::State>,
    done: u32,
    state: &E::State,
    need: u32,
) -> bool
    requires indexed { IsIndexOf E.number_of progress.now.lemmas progress.now.index }
    ensures { IsTrue result ↔ IsKnown progress.now.lemmas done state.now need }
{
    progress.index.knows(
        steps,
        progress.lemmas.as_slice(),
        u64::from(done),
        state,
        u64::from(need),
    )
}

/// Keeps one lemma more.
pub(crate) fn keep<E: EndSteps>(
    alloc: Global,
    steps: &E,
    progress: &mut Progress<E::State>,
    done: u32,
    state: E::State,
    bound: u32,
) -> Result<(), NoMemory>
    requires indexed { IsIndexOf E.number_of progress.old.lemmas progress.old.index }
    ensures lemmas { OnOk result (progress.new.lemmas ≡ progress.old.lemmas ++ lemma_of done state bound ∷ []) }
    ensures indexed { OnOk result (IsIndexOf E.number_of progress.new.lemmas progress.new.index) }
    ensures left { OnOk result (progress.new.left ≡ progress.old.left) }
{
    let lemma = EndLemma { bound, done, state };
    progress
        .index
        .add(alloc, steps, progress.lemmas.as_slice(), &lemma)?;
    progress.lemmas.push(lemma)?;
    Ok(())
}
