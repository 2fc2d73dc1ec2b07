// Where lemmas stand in a list, so that those on a state are found without a walk through all of them.
ghost use Rattle.std.specs.Prelude.{◌≡◌, ◌≢◌, ◌↔◌, ◌++◌, [], ◌∷◌, ℕ, Any, IsTrue, MatchOption, Some, OnOk, nat_eq};
ghost use Rattle.std.specs.Prelude.{option_map, unwrap_or};
ghost use Rattle.std.specs.HashMap.{get};
ghost use Rattle.end_lemmas.specs.Indexed.{IsIndexOf, noted_at};
ghost use Rattle.end_lemmas.specs.Justified.{IsKnown, Says, SaysAt};

use crate::known::first_saying;
use crate::{EndLemma, EndSteps};
use cell_num::NoMemory;
use std::alloc::Global;
use std::collections::HashMap;

/// Where the lemmas of a list stand, by numbers of their states.
#[derive(Drop)]
pub struct LemmaIndex {
    places: HashMap<u64, Vec<usize>>,
}

fn note(
    alloc: Global,
    places: &mut HashMap<u64, Vec<usize>>,
    number: u64,
    at: usize,
) -> Result<(), NoMemory>
    ensures kept { OnOk result (option_map (λ p. p.items) (get nat_eq places.new number) ≡
        Some (unwrap_or (option_map (λ p. p.items) (get nat_eq places.old number)) [] ++ at ∷ [])) }
    ensures others { OnOk result ((q : ℕ) → q ≢ number → get nat_eq places.new q ≡ get nat_eq places.old q) }
{
    let mut noted = match places.remove(&number) {
        Some(noted) => noted,
        None => Vec::new(alloc),
    };
    if noted.push(at).is_err() {
        return Err(NoMemory);
    }
    match places.insert(number, noted) {
        Ok(_) => Ok(()),
        Err(_) => Err(NoMemory),
    }
}

impl LemmaIndex {
    /// The index of no lemmas.
    pub fn new<E: EndSteps>(alloc: Global, steps: &E) -> LemmaIndex
        ensures { IsIndexOf E.number_of [] result }
    {
        LemmaIndex {
            places: HashMap::new(alloc),
        }
    }

    /// One lemma more, after those that are noted.
    pub fn add<E: EndSteps>(
        &mut self,
        alloc: Global,
        steps: &E,
        lemmas: &[EndLemma<E::State>],
        lemma: &EndLemma<E::State>,
    ) -> Result<(), NoMemory>
        requires { IsIndexOf E.number_of lemmas.now self.old }
        ensures { OnOk result (IsIndexOf E.number_of (lemmas.now ++ lemma.now ∷ []) self.new) }
    {
        let number = steps.number(u64::from(lemma.done), &lemma.state);
        note(alloc, &mut self.places, number, lemmas.len())?;
        Ok(())
    }

    fn noted_at(&self, number: u64) -> &[usize]
        ensures { result.now ≡ noted_at self.now number }
    {
        match self.places.get(&number) {
            Some(places) => places.as_slice(),
            None => &[],
        }
    }

    /// Where a lemma says that at least `need` more ends come from the state after the first `done` levels on; none,
    /// where no lemma says so.
    pub fn place<E: EndSteps>(
        &self,
        steps: &E,
        lemmas: &[EndLemma<E::State>],
        done: u64,
        state: &E::State,
        need: u64,
    ) -> Option<usize>
        requires { IsIndexOf E.number_of lemmas.now self.now }
        ensures { MatchOption result (Any (Says done state.now need) lemmas.now → ⊥)
            (SaysAt lemmas.now done state.now need) }
    {
        let places = self.noted_at(steps.number(done, state));
        first_saying(steps, lemmas, done, state, need, places)
    }

    /// Whether the lemmas say that at least `need` more ends come from the state after the first `done` levels on.
    pub fn knows<E: EndSteps>(
        &self,
        steps: &E,
        lemmas: &[EndLemma<E::State>],
        done: u64,
        state: &E::State,
        need: u64,
    ) -> bool
        requires { IsIndexOf E.number_of lemmas.now self.now }
        ensures { IsTrue result ↔ IsKnown lemmas.now done state.now need }
    {
        if need == 0 {
            return true;
        }
        match self.place(steps, lemmas, done, state, need) {
            Some(_) => true,
            None => false,
        }
    }
}
