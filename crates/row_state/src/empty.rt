ghost use Rattle.std.specs.Prelude.{◌≡◌, ◌-◌};
ghost use Rattle.row_state.specs.declared.kind.Kinds.{Kinds as KindsOf};
ghost use Rattle.row_state.specs.declared.state.State.{State as StateOf};
ghost use Rattle.row_state.specs.Candidates.{IsCandidate};
ghost use Rattle.row_state.specs.Emptied.{AreEmpty, filled};
ghost use Rattle.row_state.specs.Start.{AreSomeKinds, IsState};
ghost use Rattle.row_state.specs.Steps.{IsPossible, state_after};

use crate::parity::count_empty;
use crate::{Candidate, Kinds, State};
use cell_num::Row;
use row_model::Placed;

/// How many places of each row stay empty in every completion of a state.
#[derive(Clone, Copy, Debug)]
pub struct EmptyPlaces {
    pub p: u32,
    pub n: u32,
}

// One less where the place is empty.
fn behind_place(places: u32, place: &Option<Placed>) -> u32
    ensures { result ≡ places - (1 - filled place.now) }
{
    match place {
        Some(_) => places,
        None => places.saturating_sub(1),
    }
}

impl EmptyPlaces {
    /// Those of the state.
    pub fn of(state: &State, kinds: &Kinds) -> EmptyPlaces
        requires { IsState kinds.now state.now }
        ensures { AreEmpty kinds.now state.now result }
    {
        EmptyPlaces {
            p: count_empty(Row::P, state, kinds),
            n: count_empty(Row::N, state, kinds),
        }
    }

    /// Those of the state after a column that may come next, from those of the state before it.
    pub fn beyond(&self, next: &Candidate) -> EmptyPlaces
        ensures { (k : KindsOf) (s : StateOf) → AreSomeKinds k → IsCandidate k next.now →
            IsPossible k s next.now.step → AreEmpty k s self.now →
            AreEmpty k (state_after k s next.now.step) result }
    {
        EmptyPlaces {
            p: behind_place(self.p, &next.column.p),
            n: behind_place(self.n, &next.column.n),
        }
    }
}
