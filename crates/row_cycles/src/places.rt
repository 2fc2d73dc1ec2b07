// Where the lemmas on each state are.
ghost use Rattle.std.specs.Prelude.{◌≡◌, ◌≢◌, ◌++◌, [], ◌∷◌, ℕ, OnOk, Some, nat_eq, option_map, unwrap_or};
ghost use Rattle.std.specs.HashMap.{get};
ghost use Rattle.row_cycles.specs.Noted.{noted_at};

use cell_num::NoMemory;
use std::alloc::Global;
use std::collections::HashMap;

/// Where the lemmas on each state are in their list, by the number of the state. It makes a look-up short.
#[derive(Drop)]
pub struct Places {
    noted: HashMap<u128, Vec<usize>>,
}

fn note(
    alloc: Global,
    noted: &mut HashMap<u128, Vec<usize>>,
    number: u128,
    at: usize,
) -> Result<(), NoMemory>
    ensures kept { OnOk result (option_map (λ p. p.items) (get nat_eq noted.new number) ≡
        Some (unwrap_or (option_map (λ p. p.items) (get nat_eq noted.old number)) [] ++ at ∷ [])) }
    ensures others { OnOk result ((q : ℕ) → q ≢ number → get nat_eq noted.new q ≡ get nat_eq noted.old q) }
{
    let mut places = match noted.remove(&number) {
        Some(places) => places,
        None => Vec::new(alloc),
    };
    if places.push(at).is_err() {
        return Err(NoMemory);
    }
    match noted.insert(number, places) {
        Ok(_) => Ok(()),
        Err(_) => Err(NoMemory),
    }
}

impl Places {
    /// No lemma is noted.
    pub fn new(alloc: Global) -> Places
        ensures { (q : ℕ) → noted_at result q ≡ [] }
    {
        Places {
            noted: HashMap::new(alloc),
        }
    }

    /// The places of the lemmas on the state with the number.
    pub fn at(&self, number: u128) -> &[usize]
        ensures { result.now ≡ noted_at self.now number }
    {
        match self.noted.get(&number) {
            Some(places) => places.as_slice(),
            None => &[],
        }
    }

    /// Notes one lemma more on the state with the number.
    pub fn add(&mut self, alloc: Global, number: u128, at: usize) -> Result<(), NoMemory>
        ensures kept { OnOk result (noted_at self.new number ≡ noted_at self.old number ++ at ∷ []) }
        ensures others { OnOk result ((q : ℕ) → q ≢ number → noted_at self.new q ≡ noted_at self.old q) }
    {
        note(alloc, &mut self.noted, number, at)?;
        Ok(())
    }
}
