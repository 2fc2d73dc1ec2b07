// The trails of each row, which are counted once for all states that have the same left in it.
ghost use Rattle.std.specs.Prelude.{◌≡◌, ◌≢◌, ℕ, List as Sequence, Option, Some, IfOk, OnErr, OnOk, nat_eq};
ghost use Rattle.std.specs.HashMap.{get};
ghost use Rattle.cell_num.specs.declared.finger.Row.{Row as RowOf};
ghost use Rattle.cell_num.specs.declared.net.NetNo.{NetNo};
ghost use Rattle.row_state.specs.declared.kind.Kinds.{Kinds as KindsOf};
ghost use Rattle.row_state.specs.Start.{IsState};
ghost use Rattle.row_state.specs.Tests.{left_of};
ghost use Rattle.row_state.specs.Trails.{end_of};
ghost use Rattle.lemma_check.specs.Noted.{AreNoted, AreNotedOf};

use cell_num::{NoMemory, Row};
use row_state::{Kinds, RowBound, State, row_number};
use std::alloc::Global;
use std::collections::HashMap;

/// The trails that were counted, for each row by the number of what it has left.
#[derive(Drop)]
pub struct RowTrails {
    p: HashMap<u64, u32>,
    n: HashMap<u64, u32>,
}

fn note(noted: &mut HashMap<u64, u32>, number: u64, trails: u32) -> Result<(), NoMemory>
    ensures noted { OnOk result (get nat_eq noted.new number ≡ Some trails) }
    ensures others { OnOk result ((q : ℕ) → q ≢ number → get nat_eq noted.new q ≡ get nat_eq noted.old q) }
    ensures unchanged { OnErr result ((q : ℕ) → get nat_eq noted.new q ≡ get nat_eq noted.old q) }
{
    match noted.insert(number, trails) {
        Ok(_) => Ok(()),
        Err(_) => Err(NoMemory),
    }
}

// The trails of the row, counted where they are not noted yet.
#[tactic(auto, using(crate::proofs::Noting::noted_still))]
fn trails_of<B: RowBound>(
    noted: &mut HashMap<u64, u32>,
    bound: &B,
    kinds: &Kinds,
    row: Row,
    state: &State,
) -> Result<u32, NoMemory>
    requires state { IsState kinds.now state.now }
    requires noted { AreNotedOf (B.trails_of bound.now) row kinds.now (get nat_eq noted.old) }
    ensures noted { AreNotedOf (B.trails_of bound.now) row kinds.now (get nat_eq noted.new) }
    ensures trails { IfOk result (λ t. t ≡
        B.trails_of bound.now row (end_of row state.now) (left_of row state.now) kinds.now) }
{
    let number = row_number(row, state, kinds);
    if let Some(trails) = noted.get(&number).copied() {
        return Ok(trails);
    }
    let trails = bound.trails(row, state, kinds);
    note(noted, number, trails)?;
    Ok(trails)
}

impl RowTrails {
    /// None noted yet.
    pub fn new(alloc: Global) -> RowTrails
        ensures { (f : RowOf → Option NetNo → Sequence ℕ → KindsOf → ℕ) (k : KindsOf) → AreNoted f k result }
    {
        RowTrails {
            p: HashMap::new(alloc),
            n: HashMap::new(alloc),
        }
    }

    /// The trails of a row of the state by the bound and the kinds that the noted ones are of.
    pub fn of<B: RowBound>(
        &mut self,
        bound: &B,
        kinds: &Kinds,
        row: Row,
        state: &State,
    ) -> Result<u32, NoMemory>
        requires state { IsState kinds.now state.now }
        requires noted { AreNoted (B.trails_of bound.now) kinds.now self.old }
        ensures noted { AreNoted (B.trails_of bound.now) kinds.now self.new }
        ensures trails { IfOk result (λ t. t ≡
            B.trails_of bound.now row (end_of row state.now) (left_of row state.now) kinds.now) }
    {
        match row {
            Row::P => trails_of(&mut self.p, bound, kinds, Row::P, state),
            Row::N => trails_of(&mut self.n, bound, kinds, Row::N, state),
        }
    }
}
