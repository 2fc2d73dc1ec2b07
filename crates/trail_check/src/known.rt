ghost use Rattle.std.specs.Prelude.{◌≡◌};
ghost use Rattle.trail_check.specs.Justified.{better, ends_proved, is_start, same_state, says};

use crate::TrailLemma;
use trail_state::Place;

/// Whether two states have the same places in the same order.
pub fn is_same_state(a: &[Place], b: &[Place]) -> bool
    ensures { result ≡ same_state a.now b.now }
{
    a == b
}

/// Whether the lemma is on the state after the first `done` gates, with this bound or a greater one.
pub(crate) fn is_said(lemma: &TrailLemma, done: u64, state: &[Place], need: u32) -> bool
    ensures { result ≡ says done state.now need lemma.now }
{
    u64::from(lemma.done) == done
        && is_same_state(lemma.state.as_slice(), state)
        && need <= lemma.bound
}

fn is_at_start(lemma: &TrailLemma) -> bool
    ensures { result ≡ is_start lemma.now }
{
    lemma.done == 0 && lemma.state.len() == 0
}

fn better_of(most: u32, lemma: &TrailLemma) -> u32
    ensures { result ≡ better most lemma.now }
{
    if is_at_start(lemma) {
        most.max(lemma.bound)
    } else {
        most
    }
}

/// The ends that the lemmas prove from the state before the first gate on.
pub fn ends_proved(lemmas: &[TrailLemma]) -> u32
    ensures { result ≡ ends_proved lemmas.now }
{
    let mut most = 0;
    for lemma in lemmas {
        most = better_of(most, lemma);
    }
    most
}
