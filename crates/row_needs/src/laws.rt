// What holds of the bounds of a cell.
ghost use Rattle.std.specs.Prelude.{◌≡◌, ℕ};
ghost use Rattle.row_state.specs.declared.kind.Kinds.{Kinds};
ghost use Rattle.row_state.specs.Start.{AreSomeKinds};
ghost use Rattle.row_needs.specs.Bound.{IsBoundOf, NeedBound, value_by};

/// All bounds of a cell with the same limit say the same. It does nothing: its contract is the law.
pub fn one_value()
    ensures { (limit : ℕ) (k : Kinds) (a b : NeedBound) → AreSomeKinds k → IsBoundOf limit k a → IsBoundOf limit k b
        → value_by a ≡ value_by b }
{}
