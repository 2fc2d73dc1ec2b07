// The call does nothing: its contract is the law.
ghost use Rattle.std.specs.Prelude.{◌≤◌, ◌+◌, ◌*◌, ℕ, List, []};
ghost use Rattle.cell_num.specs.declared.finger.Fingers.{Fingers};
ghost use Rattle.cell_num.specs.declared.net.NetNo.{NetNo};
ghost use Rattle.cell_num.specs.Fingers.{AreFingers};
ghost use Rattle.row_model.specs.declared.column.Column.{Column};
ghost use Rattle.row_model.specs.Arrangement.{IsArrangement};
ghost use Rattle.row_model.specs.Gaps.{gaps_of};
ghost use Rattle.trail_state.specs.Levels.{Ends, IsOrder};
ghost use Rattle.open_gates.specs.declared.gates.OpenGates.{OpenGates as Open};
ghost use Rattle.open_gates.specs.Leveled.{levels_in};
ghost use Rattle.open_gates.specs.Open.{AreOpenGates};

/// No arrangement of the fingers has fewer ends of trails than every list of choices along an order has, where some
/// gates are left open. A row has two for each stretch without a gap. With an open gate a row may have more ends than
/// some list of choices, so the law is about a bound, not about the fewest gaps.
pub fn least_open_ends()
    ensures { (f : Fingers) → AreFingers f → (order : List NetNo) → IsOrder f order →
        (opened : Open) → AreOpenGates f opened →
        (ends : ℕ) → Ends (levels_in f opened order) [] ends → (row : List Column) → IsArrangement row f →
        ends ≤ 2 * (gaps_of row + 1) }
{}
