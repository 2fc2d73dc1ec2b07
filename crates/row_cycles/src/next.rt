// The gaps that are left after a next column.
ghost use Rattle.std.specs.Prelude.{◌≡◌, ◌+◌, IfNone, IfSome};
ghost use Rattle.row_state.specs.Candidates.{IsCandidate, IsNumbered};
ghost use Rattle.row_state.specs.Completion.{cost_of};
ghost use Rattle.row_state.specs.Steps.{IsPossible, column_of};
ghost use Rattle.row_cycles.specs.Next.{IfLeft};

use row_state::{Candidate, Kinds, Numbered};

/// How many of the gaps are left after the column, where it may come next and does not cost more than there are.
pub fn left_after(from: &Numbered, kinds: &Kinds, next: &Candidate, gaps: u32) -> Option<u32>
    requires numbered { IsNumbered kinds.now from.now }
    requires next { IsCandidate kinds.now next.now }
    ensures step { IfSome result (λ _. IsPossible kinds.now from.now.state next.now.step) }
    ensures left { IfSome result (λ left. cost_of from.now.state (column_of kinds.now next.now.step) + left ≡ gaps) }
    ensures none { IfNone result (IfLeft kinds.now from.now.state gaps next.now.step (λ _. ⊥)) }
{
    if !from.allows(kinds, next) {
        return None;
    }
    gaps.checked_sub(from.cost(next))
}
