// Whether an earlier lemma is about a state and what lines ask for.
ghost use Rattle.std.specs.Prelude.{◌≡◌, ◌↔◌, All, Any, IsTrue, false};
ghost use Rattle.row_cycles.specs.Above.{Follows, HasNets};
ghost use Rattle.row_cycles.specs.Certificate.{Covers};
ghost use Rattle.row_cycles.specs.Noted.{AreNotedAt, IsPassedBy};

use crate::{CycleLemma, NetAbove, Places, is_above};
use row_state::{Numbered, State};

fn is_same(a: &State, b: &State) -> bool
    ensures { IsTrue result ↔ (a.now ≡ b.now) }
{
    a == b
}

/// Whether each of some pairs follows. The nets of `above` are numbered below [`cell_num::MOST_NETS`].
pub fn all_follow(above: &[NetAbove], pairs: &[NetAbove]) -> bool
    requires nets { All (HasNets 256) above.now }
    ensures { IsTrue result ↔ All (Follows above.now) pairs.now }
{
    for pair in pairs {
        if !is_above(above, pair.upper, pair.lower) {
            return false;
        }
    }
    true
}

/// Whether the lemma is on the state, on as many gaps or more, and what it asks for follows.
pub fn covers(lemma: &CycleLemma, state: &State, gaps: u32, above: &[NetAbove]) -> bool
    requires nets { All (HasNets 256) above.now }
    ensures { IsTrue result ↔ Covers state.now gaps above.now lemma.now }
{
    if lemma.gaps < gaps {
        return false;
    }
    if !is_same(&lemma.state, state) {
        return false;
    }
    all_follow(above, lemma.above.as_slice())
}

/// Lemmas, with where those on each state are.
#[derive(Clone, Copy)]
pub struct NotedCycles<'a> {
    pub lemmas: &'a [CycleLemma],
    pub places: &'a Places,
}

// Whether the lemma at the place is about the state, as many gaps and these pairs.
#[tactic(auto, using(crate::proofs::Refuted::covered_there, crate::proofs::Refuted::passed_there))]
fn is_covered_at(
    lemmas: &[CycleLemma],
    at: usize,
    state: &State,
    gaps: u32,
    above: &[NetAbove],
) -> bool
    requires nets { All (HasNets 256) above.now }
    ensures yes { IsTrue result → Any (Covers state.now gaps above.now) lemmas.now }
    ensures no { result ≡ false → IsPassedBy (Covers state.now gaps above.now) lemmas.now at }
{
    match lemmas.get(at) {
        Some(lemma) => covers(lemma, state, gaps, above),
        None => false,
    }
}

impl NotedCycles<'_> {
    /// Whether one of them is on the state, on as many gaps or more, and asks for nothing but what follows. Only those
    /// are looked at that are noted with the number of the state. The nets of `above` are numbered below
    /// [`cell_num::MOST_NETS`].
    pub fn covers(&self, at: &Numbered, gaps: u32, above: &[NetAbove]) -> bool
        requires noted { AreNotedAt self.now.lemmas.now self.now.places.now at.now }
        requires nets { All (HasNets 256) above.now }
        ensures { IsTrue result ↔ Any (Covers at.now.state gaps above.now) self.now.lemmas.now }
    {
        for place in self.places.at(at.code) {
            if is_covered_at(self.lemmas, *place, &at.state, gaps, above) {
                return true;
            }
        }
        false
    }
}
