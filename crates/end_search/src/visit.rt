ghost use Rattle.std.specs.Prelude.{◌≡◌, ◌<◌, ◌-◌, ◌+◌, ◌^◌, All, IfOk, drop, length};
ghost use Rattle.end_lemmas.specs.Justified.{IsJustified};
ghost use Rattle.end_search.specs.Reached.{AllFit, HasFewer};
ghost use Rattle.end_search.specs.Search.{AreKept, AreSpent, IsFurther, lemma_of};
ghost use Rattle.end_search.specs.Units.{path_units, units_at, units_of};
ghost use Rattle.end_search.specs.declared.visit.Visited.TheVariants as visited;

use crate::progress::{Progress, keep, knows};
use crate::units::{level_units, take};
use cell_num::NoMemory;
use end_lemmas::EndSteps;
use std::alloc::Global;

/// What a visit of a state shows.
#[derive(Clone, Copy, Debug, PartialEq, Eq)]
pub(crate) enum Visited {
    /// Every list of choices has as many ends: a lemma that says so is justified by those kept.
    Shown,
    /// Some list of choices has fewer.
    Fewer,
    /// Too few units are left to tell.
    Spent,
}

fn rest(need: u32, ends: u64) -> u32
    ensures { result ≡ need - ends }
{
    u64::from(need).saturating_sub(ends) as u32
}

/// Visits a state after the first `done` levels, to show that every list of choices of those left has `need` ends. It
/// keeps lemmas on the states behind it, and takes the units of each state that it visits.
pub(crate) fn visit<E: EndSteps>(
    alloc: Global,
    steps: &E,
    levels: &[E::Level],
    progress: &mut Progress<E::State>,
    done: u32,
    state: &E::State,
    need: u32,
) -> Result<Visited, NoMemory>
    requires takes { All (E.takes steps.now) levels.now }
    requires few { length levels.now < 2 ^ 32 }
    requires need { 0 < need }
    requires fits { AllFit (E.steps steps.now) (drop done levels.now) state.now }
    requires kept { AreKept (E.steps steps.now) E.number_of levels.now progress.old }
    ensures further { IfOk result (λ _.
        IsFurther (E.steps steps.now) E.number_of levels.now done state.now need progress.old progress.new) }
    ensures shown { IfOk result (λ v. v ≡ visited.Shown →
        IsJustified (E.steps steps.now) levels.now progress.new.lemmas (lemma_of done state.now need)) }
    ensures fewer { IfOk result (λ v. v ≡ visited.Fewer →
        HasFewer (E.steps steps.now) (drop done levels.now) state.now need) }
    ensures spent { IfOk result (λ v. v ≡ visited.Spent → progress.new.left ≡ 0) }
    ensures each { IfOk result (λ v. v ≡ visited.Shown →
        progress.new.left + units_of (E.steps steps.now) levels.now progress.new.lemmas
        + units_at (E.steps steps.now) levels.now done
        ≡ progress.old.left + units_of (E.steps steps.now) levels.now progress.old.lemmas) }
    ensures path { IfOk result (λ _. AreSpent (E.steps steps.now) levels.now progress.old progress.new
        (path_units (E.steps steps.now) (drop done levels.now))) }
{
    let Some(level) = levels.get(done as usize) else {
        return Ok(Visited::Fewer);
    };
    if !take(&mut progress.left, level_units(steps, level)) {
        return Ok(Visited::Spent);
    }
    for choice in steps.choices(level) {
        let settled = steps.after(alloc, level, state, choice)?;
        let rest = rest(need, settled.ends);
        if knows(steps, progress, done + 1, &settled.state, rest) {
            continue;
        }
        match visit(
            alloc,
            steps,
            levels,
            progress,
            done + 1,
            &settled.state,
            rest,
        )? {
            Visited::Shown => {}
            Visited::Fewer => return Ok(Visited::Fewer),
            Visited::Spent => return Ok(Visited::Spent),
        }
        keep(alloc, steps, progress, done + 1, settled.state, rest)?;
    }
    Ok(Visited::Shown)
}
