// Where lemmas stand in a list, so that those on a state are found without a walk through all of them.
ghost use Rattle.std.specs.Prelude.{◌≡◌, ◌≢◌, ◌++◌, [], ◌∷◌, ℕ, Some, OnOk, nat_eq, option_map, unwrap_or};
ghost use Rattle.std.specs.HashMap.{get};
ghost use Rattle.std.specs.List.{list_any};
ghost use Rattle.trail_check.specs.Indexed.{IsIndexOf, marks, mixed, noted_at, says_at, state_number, with_place};
ghost use Rattle.trail_check.specs.Justified.{is_known, says};

use crate::TrailLemma;
use crate::known::is_said;
use cell_num::NoMemory;
use std::alloc::Global;
use std::collections::HashMap;
use trail_state::{Place, TrailState};

/// Where the lemmas of a list stand, by numbers of their states.
#[derive(Drop)]
pub struct LemmaIndex {
    places: HashMap<u64, Vec<usize>>,
}

/// A number of 64 bits, of a number and one more. States with one number are compared themselves.
pub fn mixed(number: u64, more: u64) -> u64
    ensures { result ≡ mixed number more }
{
    number.wrapping_mul(1_099_511_628_211).wrapping_add(more)
}

fn marks(place: &Place) -> u64
    ensures { result ≡ marks place.now }
{
    let odd = if place.odd { 1 } else { 0 };
    let flagged = if place.flagged { 2 } else { 0 };
    odd + flagged
}

fn with_place(number: u64, place: &Place) -> u64
    ensures { result ≡ with_place number place.now }
{
    let node = mixed(number, u64::from(place.node.0));
    let class = mixed(node, u64::from(place.class.0));
    mixed(class, marks(place))
}

/// A number of the places of a state after the first `done` gates. Other states may share it.
pub fn state_number(done: u64, state: &[Place]) -> u64
    ensures { result ≡ state_number done state.now }
{
    let mut number = done;
    for place in state {
        number = with_place(number, place);
    }
    number
}

fn is_said_at(lemmas: &[TrailLemma], done: u64, state: &[Place], need: u32, at: usize) -> bool
    ensures { result ≡ says_at lemmas.now done state.now need at }
{
    match lemmas.get(at) {
        Some(lemma) => is_said(lemma, done, state, need),
        None => false,
    }
}

fn is_said_at_one(
    lemmas: &[TrailLemma],
    done: u64,
    state: &[Place],
    need: u32,
    places: &[usize],
) -> bool
    ensures { result ≡ list_any (says_at lemmas.now done state.now need) places.now }
{
    places
        .iter()
        .any(|at| is_said_at(lemmas, done, state, need, *at))
}

fn note(
    alloc: Global,
    places: &mut HashMap<u64, Vec<usize>>,
    number: u64,
    at: usize,
) -> Result<(), NoMemory>
    ensures kept { OnOk result (option_map (λ p. p.items) (get nat_eq places.new number) ≡
        Some (unwrap_or (option_map (λ p. p.items) (get nat_eq places.old number)) [] ++ at ∷ [])) }
    ensures others { OnOk result ((q : ℕ) → q ≢ number → get nat_eq places.new q ≡ get nat_eq places.old q) }
{
    let mut noted = match places.remove(&number) {
        Some(noted) => noted,
        None => Vec::new(alloc),
    };
    if noted.push(at).is_err() {
        return Err(NoMemory);
    }
    match places.insert(number, noted) {
        Ok(_) => Ok(()),
        Err(_) => Err(NoMemory),
    }
}

impl LemmaIndex {
    /// The index of no lemmas.
    pub fn new(alloc: Global) -> LemmaIndex
        ensures { IsIndexOf [] result }
    {
        LemmaIndex {
            places: HashMap::new(alloc),
        }
    }

    /// One lemma more, after those that are noted.
    pub fn add(
        &mut self,
        alloc: Global,
        lemmas: &[TrailLemma],
        lemma: &TrailLemma,
    ) -> Result<(), NoMemory>
        requires { IsIndexOf lemmas.now self.old }
        ensures { OnOk result (IsIndexOf (lemmas.now ++ lemma.now ∷ []) self.new) }
    {
        let number = state_number(u64::from(lemma.done), lemma.state.as_slice());
        note(alloc, &mut self.places, number, lemmas.len())?;
        Ok(())
    }

    fn noted_at(&self, number: u64) -> &[usize]
        ensures { result.now ≡ noted_at self.now number }
    {
        match self.places.get(&number) {
            Some(places) => places.as_slice(),
            None => &[],
        }
    }

    fn says(&self, lemmas: &[TrailLemma], done: u64, state: &[Place], need: u32) -> bool
        requires { IsIndexOf lemmas.now self.now }
        ensures { result ≡ list_any (says done state.now need) lemmas.now }
    {
        let places = self.noted_at(state_number(done, state));
        is_said_at_one(lemmas, done, state, need, places)
    }

    /// Whether the lemmas say that at least `need` more ends come from the state after the first `done` gates on.
    pub fn knows(&self, lemmas: &[TrailLemma], done: u64, state: &TrailState, need: u32) -> bool
        requires { IsIndexOf lemmas.now self.now }
        ensures { result ≡ is_known lemmas.now done state.now need }
    {
        need == 0 || self.says(lemmas, done, state.as_slice(), need)
    }
}
