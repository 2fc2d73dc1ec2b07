ghost use Rattle.std.specs.Prelude.{◌≡◌, ◌≢◌, ℕ, Some, OnErr, OnOk, nat_eq, unwrap_or};
ghost use Rattle.std.specs.HashMap.{get};
ghost use Rattle.row_state.specs.declared.kind.Kinds.{Kinds as KindsOf};
ghost use Rattle.row_state.specs.declared.state.State.{State as StateOf};
ghost use Rattle.row_state.specs.Code.{state_code};
ghost use Rattle.row_state.specs.Start.{IsState};
ghost use Rattle.lemma_check.specs.Reaches.{raised};
ghost use Rattle.lemma_check.specs.Known.{best_known, noted};

use cell_num::NoMemory;
use row_state::{Kinds, State, code};
use std::alloc::Global;
use std::collections::HashMap;

/// The best bound of each state that was noted, for the kinds that the states are of.
#[derive(Drop)]
pub struct Known {
    // By the number of the state.
    bounds: HashMap<u128, u32>,
}

fn kept(bounds: &HashMap<u128, u32>, number: u128) -> u32
    ensures { result ≡ unwrap_or (get nat_eq bounds.now number) 0 }
{
    bounds.get(&number).copied().unwrap_or(0)
}

fn keep(bounds: &mut HashMap<u128, u32>, number: u128, bound: u32) -> Result<(), NoMemory>
    ensures kept { OnOk result (get nat_eq bounds.new number ≡ Some bound) }
    ensures others { OnOk result ((q : ℕ) → q ≢ number → get nat_eq bounds.new q ≡ get nat_eq bounds.old q) }
    ensures unchanged { OnErr result (bounds.new.entries ≡ bounds.old.entries) }
{
    match bounds.insert(number, bound) {
        Ok(_) => Ok(()),
        Err(_) => Err(NoMemory),
    }
}

impl Known {
    /// No bound so far.
    pub fn new(alloc: Global) -> Known
        ensures { (k : KindsOf) (s : StateOf) → best_known result k s ≡ 0 }
    {
        Known {
            bounds: HashMap::new(alloc),
        }
    }

    /// The best bound noted of the state with the number, 0 if none.
    pub fn best_at(&self, number: u128) -> u32
        ensures { (k : KindsOf) (s : StateOf) → state_code k s ≡ number → result ≡ best_known self.now k s }
    {
        kept(&self.bounds, number)
    }

    /// The best bound noted of the state, 0 if none.
    pub fn best(&self, kinds: &Kinds, state: &State) -> u32
        requires state { IsState kinds.now state.now }
        ensures { result ≡ best_known self.now kinds.now state.now }
    {
        self.best_at(code(state, kinds))
    }

    /// One bound more of the state with the number. What was noted is as before where the memory is refused.
    pub fn note_at(&mut self, number: u128, bound: u32) -> Result<(), NoMemory>
        ensures raised { OnOk result ((k : KindsOf) (x : StateOf) → IsState k x → state_code k x ≡ number →
            (s : StateOf) → IsState k s → best_known self.new k s ≡ raised x bound s (best_known self.old k s)) }
        ensures unchanged { OnErr result ((k : KindsOf) (s : StateOf) →
            best_known self.new k s ≡ best_known self.old k s) }
        ensures same { OnErr result (noted self.new ≡ noted self.old) }
    {
        let most = kept(&self.bounds, number).max(bound);
        keep(&mut self.bounds, number, most)?;
        Ok(())
    }
}
