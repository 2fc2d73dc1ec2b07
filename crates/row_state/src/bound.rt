ghost use Rattle.std.specs.Prelude.{◌≡◌, ◌-◌, ltb, ℕ, List, Option};
ghost use Rattle.cell_num.specs.declared.finger.Row.{Row};
ghost use Rattle.cell_num.specs.declared.net.NetNo.{NetNo};
ghost use Rattle.row_state.specs.declared.kind.Kinds.{Kinds};
ghost use Rattle.row_state.specs.declared.state.State.{State};
ghost use Rattle.row_state.specs.Completion.{Need};
ghost use Rattle.row_state.specs.Start.{IsState, AreSomeKinds};
ghost use Rattle.row_state.specs.Tests.{empty_in, left_of};
ghost use Rattle.row_state.specs.Trails.{end_of};
ghost use Rattle.row_state.specs.Versions.{IsVersion};

use crate::{Kinds, State};
use cell_num::Row;

/// The version of a log whose lemmas rest on the parity bound.
pub const PARITY_LOG: u32 = 1;

/// The version of a log whose lemmas rest on the component bound.
pub const COMPONENT_LOG: u32 = 2;

// Whether the trails, less the places that stay empty, are more than a number.
pub(crate) fn are_above(trails: u32, empty: u32, most: u32) -> bool
    ensures { result ≡ ltb most (trails - empty) }
{
    most < trails.saturating_sub(empty)
}

/// A bound on the gaps that every completion of a state still has.
pub trait RowBound {
    /// The number that the bound answers.
    ghost value: { Self → Row → State → Kinds → ℕ };

    /// What the bound says of a row, by its open end and its counts, where none of its places stays empty.
    ghost trails_of: { Self → Row → Option NetNo → List ℕ → Kinds → ℕ };

    /// The version of a log whose lemmas rest on the bound.
    ghost version_of: { Self → ℕ };

    fn bound(&self, row: Row, state: &State, kinds: &Kinds) -> u32
        requires state { IsState kinds.now state.now }
        ensures { result ≡ value self.now row state.now kinds.now };

    /// The trails that the fingers left of the row need beside one: they depend on that row alone.
    fn trails(&self, row: Row, state: &State, kinds: &Kinds) -> u32
        requires state { IsState kinds.now state.now }
        ensures { result ≡ trails_of self.now row (end_of row state.now) (left_of row state.now) kinds.now };

    /// Whether the bound is above a number, given the trails of the row and its places that stay empty.
    fn is_above(
        &self,
        row: Row,
        state: &State,
        kinds: &Kinds,
        trails: u32,
        empty: u32,
        most: u32,
    ) -> bool
        requires state { IsState kinds.now state.now }
        requires trails { trails ≡ trails_of self.now row (end_of row state.now) (left_of row state.now) kinds.now }
        requires empty { empty ≡ empty_in row state.now kinds.now }
        ensures { result ≡ ltb most (value self.now row state.now kinds.now) };

    /// The version of a log whose lemmas rest on the bound.
    fn version(&self) -> u32
        ensures { result ≡ version_of self.now };

    /// Every completion has at least that number of further gaps.
    ghost holds: { (b : Self) (row : Row) (s : State) (k : Kinds) → AreSomeKinds k → IsState k s →
        Need k s (value b row s k) };

    /// Logs have such versions.
    ghost known: { (b : Self) → IsVersion (version_of b) };
}
