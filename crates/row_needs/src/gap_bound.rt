// Bounds on the gaps that completions still have.
ghost use Rattle.std.specs.Prelude.{◌≡◌, ◌<◌, ◌↔◌, ℕ, IsTrue};
ghost use Rattle.cell_num.specs.declared.finger.Row.{Row as RowOf};
ghost use Rattle.row_state.specs.declared.kind.Kinds.{Kinds as KindsOf};
ghost use Rattle.row_state.specs.declared.state.State.{State as StateOf};
ghost use Rattle.row_state.specs.Candidates.{IsNumbered};
ghost use Rattle.row_state.specs.Completion.{Need};
ghost use Rattle.row_state.specs.Component.{component_value};
ghost use Rattle.row_state.specs.Start.{AreSomeKinds, IsState};
ghost use Rattle.row_needs.specs.Above.{IsAboveGaps};

use cell_num::Row;
use row_state::{Component, Kinds, Numbered, RowBound, State};

/// A bound on the gaps that every completion of a state still has.
pub trait GapBound {
    /// What the bound says of each row.
    ghost value: { Self → RowOf → StateOf → KindsOf → ℕ };

    /// Whether it says of a row that each completion of the state has more gaps than that.
    fn needs_more(&self, kinds: &Kinds, at: &Numbered, gaps: u32) -> bool
        requires numbered { IsNumbered kinds.now at.now }
        ensures { IsTrue result ↔ IsAboveGaps (value self.now) kinds.now at.now.state gaps };

    /// Every completion has at least the gaps that the bound says. It does nothing: its contract is the law.
    fn show_holds(&self)
        ensures { (row : RowOf) (s : StateOf) (k : KindsOf) → AreSomeKinds k → IsState k s
            → Need k s (value self.now row s k) };
}

fn row_needs_more(row: Row, kinds: &Kinds, state: &State, gaps: u32) -> bool
    requires state { IsState kinds.now state.now }
    ensures { IsTrue result ↔ (gaps < component_value row state.now kinds.now) }
{
    gaps < Component.bound(row, state, kinds)
}

/// Whether the component bound of a row is above the gaps.
pub(crate) fn component_needs_more(kinds: &Kinds, state: &State, gaps: u32) -> bool
    requires state { IsState kinds.now state.now }
    ensures { IsTrue result ↔ IsAboveGaps component_value kinds.now state.now gaps }
{
    if row_needs_more(Row::P, kinds, state, gaps) {
        return true;
    }
    row_needs_more(Row::N, kinds, state, gaps)
}

impl GapBound for Component {
    ghost value = { λ b row s k. component_value row s k };

    fn needs_more(&self, kinds: &Kinds, at: &Numbered, gaps: u32) -> bool {
        component_needs_more(kinds, &at.state, gaps)
    }

    fn show_holds(&self) {}
}
