// Whether an earlier lemma is about a state with tracks.
ghost use Rattle.std.specs.Prelude.{◌≡◌, ◌↔◌, All, Any, Contains, IsTrue, false};
ghost use Rattle.std.specs.List.{list_all, list_any};
ghost use Rattle.track_ways.specs.Checked.{CoversListed};
ghost use Rattle.track_check.specs.Noted.{AreNotedAt, IsPassed};
ghost use Rattle.track_check.specs.Steps.{is_track};

use row_cycles::Places;
use row_state::{Numbered, State};
use track_ways::{NetTrack, TrackLemma};

fn is_same(a: &State, b: &State) -> bool
    ensures { IsTrue result ↔ (a.now ≡ b.now) }
{
    a == b
}

fn is_in(way: &[NetTrack], t: &NetTrack) -> bool
    ensures { result ≡ list_any (is_track t.now) way.now }
{
    way.iter().any(|u| u.net.0 == t.net.0 && u.track == t.track)
}

fn all_in(way: &[NetTrack], tracks: &[NetTrack]) -> bool
    ensures { result ≡ list_all (λ t. list_any (is_track t) way.now) tracks.now }
{
    tracks.iter().all(|t| is_in(way, t))
}

/// Whether the way has all these tracks.
pub fn lists(way: &[NetTrack], tracks: &[NetTrack]) -> bool
    ensures { IsTrue result ↔ All (Contains way.now) tracks.now }
{
    all_in(way, tracks)
}

// Whether the lemma is about the state, as many gaps or more, and tracks that the way has.
fn covers(lemma: &TrackLemma, state: &State, gaps: u32, way: &[NetTrack]) -> bool
    ensures { IsTrue result ↔ CoversListed state.now gaps way.now lemma.now }
{
    if !is_same(&lemma.state, state) {
        return false;
    }
    if lemma.gaps < gaps {
        return false;
    }
    lists(way, lemma.tracks.as_slice())
}

/// Lemmas, with where those on each state are.
#[derive(Clone, Copy)]
pub struct NotedLemmas<'a> {
    pub lemmas: &'a [TrackLemma],
    pub places: &'a Places,
}

// Whether the lemma at the place is about the state, as many gaps and the way.
#[tactic(auto, using(crate::proofs::Noted::covered_there, crate::proofs::Noted::passed_there))]
fn is_covered_at(
    lemmas: &[TrackLemma],
    at: usize,
    state: &State,
    gaps: u32,
    way: &[NetTrack],
) -> bool
    ensures yes { IsTrue result → Any (CoversListed state.now gaps way.now) lemmas.now }
    ensures no { result ≡ false → IsPassed lemmas.now state.now gaps way.now at }
{
    match lemmas.get(at) {
        Some(lemma) => covers(lemma, state, gaps, way),
        None => false,
    }
}

impl NotedLemmas<'_> {
    /// Whether one of them is about the state, as many gaps or more, and tracks that the way has. Only those are
    /// looked at that are noted with the number of the state.
    pub fn covers(&self, at: &Numbered, gaps: u32, way: &[NetTrack]) -> bool
        requires { AreNotedAt self.now.lemmas.now self.now.places.now at.now }
        ensures { IsTrue result ↔ Any (CoversListed at.now.state gaps way.now) self.now.lemmas.now }
    {
        for place in self.places.at(at.code) {
            if is_covered_at(self.lemmas, *place, &at.state, gaps, way) {
                return true;
            }
        }
        false
    }
}
