ghost use Rattle.std.specs.Prelude.{◌↔◌, Any, IsTrue, MatchOption};
ghost use Rattle.end_lemmas.specs.Justified.{AreEndsProved, IsAtStart, Says, SaysAt};

use crate::{EndLemma, EndSteps};

// Whether the lemma is on the state after the first `done` levels, with this bound or a greater one.
fn is_said<E: EndSteps>(
    steps: &E,
    lemma: &EndLemma<E::State>,
    done: u64,
    state: &E::State,
    need: u64,
) -> bool
    ensures { IsTrue result ↔ Says done state.now need lemma.now }
{
    u64::from(lemma.done) == done
        && need <= u64::from(lemma.bound)
        && steps.is_same(&lemma.state, state)
}

fn is_said_at<E: EndSteps>(
    steps: &E,
    lemmas: &[EndLemma<E::State>],
    done: u64,
    state: &E::State,
    need: u64,
    at: usize,
) -> bool
    ensures { IsTrue result ↔ SaysAt lemmas.now done state.now need at }
{
    match lemmas.get(at) {
        Some(lemma) => is_said(steps, lemma, done, state, need),
        None => false,
    }
}

/// The first of the places where a lemma says so.
pub(crate) fn first_saying<E: EndSteps>(
    steps: &E,
    lemmas: &[EndLemma<E::State>],
    done: u64,
    state: &E::State,
    need: u64,
    places: &[usize],
) -> Option<usize>
    ensures { MatchOption result (Any (SaysAt lemmas.now done state.now need) places.now → ⊥)
        (SaysAt lemmas.now done state.now need) }
{
    for at in places {
        if is_said_at(steps, lemmas, done, state, need, *at) {
            return Some(*at);
        }
    }
    None
}

fn is_at_start<E: EndSteps>(steps: &E, start: &E::State, lemma: &EndLemma<E::State>) -> bool
    ensures { IsTrue result ↔ IsAtStart start.now lemma.now }
{
    lemma.done == 0 && steps.is_same(&lemma.state, start)
}

/// The ends that the lemmas prove from the start state on: the greatest bound of a lemma on it.
pub fn ends_proved<E: EndSteps>(steps: &E, start: &E::State, lemmas: &[EndLemma<E::State>]) -> u32
    ensures { AreEndsProved start.now lemmas.now result }
{
    let mut most = 0;
    for lemma in lemmas {
        if is_at_start(steps, start, lemma) {
            most = most.max(lemma.bound);
        }
    }
    most
}
