// What is known of states, by their numbers.
ghost use Rattle.std.specs.Prelude.{◌≡◌, ◌≢◌, ◌⊎◌, ◌↔◌, ℕ, OnOk};
ghost use Rattle.track_search.specs.Bare.{IsBare, IsUpTo, known_at, nothing_known};

use crate::known::{Known, most, nothing_known};
use cell_num::NoMemory;
use std::alloc::Global;
use std::collections::HashMap;
use track_ways::TrackLemma;

/// What is known of some states, by the numbers of the states.
#[derive(Drop)]
pub(crate) struct ByState {
    known: HashMap<u128, Known>,
}

impl ByState {
    pub(crate) fn new(alloc: Global) -> ByState
        ensures { (number : ℕ) → known_at result number ≡ nothing_known }
    {
        ByState {
            known: HashMap::new(alloc),
        }
    }

    pub(crate) fn at(&self, number: u128) -> Known
        ensures { result ≡ known_at self.now number }
    {
        match self.known.get(&number) {
            Some(known) => *known,
            None => nothing_known(),
        }
    }

    pub(crate) fn set(&mut self, number: u128, known: Known) -> Result<(), NoMemory>
        ensures set { OnOk result (known_at self.new number ≡ known) }
        ensures others { OnOk result ((q : ℕ) → q ≢ number → known_at self.new q ≡ known_at self.old q) }
    {
        match self.known.insert(number, known) {
            Ok(_) => Ok(()),
            Err(_) => Err(NoMemory),
        }
    }
}

/// Notes the gaps of a lemma without tracks on the state with the number.
#[tactic(auto, using(crate::proofs::Bare::not_bare, crate::proofs::Bare::bare_set))]
pub(crate) fn note(known: &mut ByState, number: u128, lemma: &TrackLemma) -> Result<(), NoMemory>
    ensures here { OnOk result ((n : ℕ) → IsUpTo (known_at known.new number).closed n
        ↔ (IsUpTo (known_at known.old number).closed n ⊎ IsBare lemma.now n)) }
    ensures too_few { OnOk result ((known_at known.new number).too_few ≡ (known_at known.old number).too_few) }
    ensures free { OnOk result ((known_at known.new number).free ≡ (known_at known.old number).free) }
    ensures others { OnOk result ((q : ℕ) → q ≢ number → known_at known.new q ≡ known_at known.old q) }
{
    if lemma.tracks.len() > 0 {
        return Ok(());
    }
    let here = known.at(number);
    let closed = Some(most(here.closed, lemma.gaps));
    known.set(number, Known { closed, ..here })?;
    Ok(())
}
