ghost use Rattle.std.specs.Prelude.{◌≤◌, ◌<◌, ◌+◌, ◌*◌, ◌↔◌, ℕ, List, []};
ghost use Rattle.cell_num.specs.declared.finger.Fingers.{Fingers};
ghost use Rattle.cell_num.specs.declared.net.NetNo.{NetNo};
ghost use Rattle.cell_num.specs.Fingers.{AreFingers};
ghost use Rattle.row_model.specs.declared.column.Column.{Column};
ghost use Rattle.row_model.specs.Arrangement.{IsArrangement};
ghost use Rattle.row_model.specs.Gaps.{gaps_of};
ghost use Rattle.trail_state.specs.declared.edge.Edge.{Edge};
ghost use Rattle.trail_state.specs.declared.level.Level.{Level};
ghost use Rattle.trail_state.specs.Choices.{HasChoice, IsChoice};
ghost use Rattle.trail_state.specs.Levels.{AreLevels, Ends, IsOrder};
ghost use Rattle.trail_state.specs.Pairings.{choices_of};

/// No arrangement of the fingers has fewer ends of trails than every list of choices along an order
/// has, and a row has two for each stretch without a gap. It does nothing: its contract is the law.
pub fn least_ends()
    ensures { (f : Fingers) → AreFingers f → (order : List NetNo) → IsOrder f order → (levels : List Level) (ends : ℕ) →
        AreLevels f order levels → Ends levels [] ends → (row : List Column) → IsArrangement row f →
        ends ≤ 2 * (gaps_of row + 1) }
{}

/// The listed choices of a gate are all of its choices, and no other lists: the edges of columns that arrange its
/// fingers, in some order. It does nothing: its contract is the law.
pub fn all_choices()
    ensures { (f : Fingers) → AreFingers f → (gate : ℕ) → gate < f.nets → (choice : List Edge) →
        IsChoice f gate choice ↔ HasChoice (choices_of f gate) choice }
{}
