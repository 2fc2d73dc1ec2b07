// The calls do nothing: their contracts are the laws.
ghost use Rattle.std.specs.Prelude.{◌≡◌, ◌≤◌, ◌+◌, ◌*◌, ◌↔◌, ℕ, List, []};
ghost use Rattle.cell_num.specs.declared.finger.Fingers.{Fingers};
ghost use Rattle.cell_num.specs.declared.net.NetNo.{NetNo};
ghost use Rattle.cell_num.specs.Fingers.{AreFingers};
ghost use Rattle.row_model.specs.declared.column.Column.{Column};
ghost use Rattle.row_model.specs.Arrangement.{IsArrangement};
ghost use Rattle.row_model.specs.Gaps.{gaps_of};
ghost use Rattle.trail_state.specs.declared.edge.Edge.{Edge};
ghost use Rattle.trail_state.specs.declared.level.Level.{Level};
ghost use Rattle.trail_state.specs.Levels.{AreLevels, Ends, IsOrder};
ghost use Rattle.trail_check.specs.Graph.{AreChained, class_of};
ghost use Rattle.trail_check.specs.Rows.{AreChoices, AreFewestEnds, AreFewestGaps, HasChoices, HasRow, ends_in};
ghost use Rattle.trail_check.specs.Rows.{gaps_with};

/// Two nodes are of one class where edges lead from one to the other. It does nothing: its contract is the law.
pub fn classes()
    ensures { (edges : List Edge) (u v : ℕ) → (class_of edges u ≡ class_of edges v) ↔ AreChained edges u v }
{}

/// The gaps that are possible: choices, one of each gate, have an arrangement with no more gaps than their ends say
/// (`row`), and each arrangement has choices with no more ends than two for each of its stretches without a gap
/// (`choices`). So some arrangement has at most `gaps` gaps exactly where some choices have at most `2 * (gaps + 1)`
/// ends (`possible`). It does nothing: its contract is the law.
pub fn possible_gaps()
    ensures row { (f : Fingers) → AreFingers f → (order : List NetNo) → IsOrder f order
        → (choices : List (List Edge)) → AreChoices f order choices → HasRow f (gaps_with (ends_in f choices)) }
    ensures choices { (f : Fingers) → AreFingers f → (order : List NetNo) → IsOrder f order
        → (row : List Column) → IsArrangement row f → HasChoices f order (2 * (gaps_of row + 1)) }
    ensures possible { (f : Fingers) → AreFingers f → (order : List NetNo) → IsOrder f order
        → (gaps : ℕ) → HasRow f gaps ↔ HasChoices f order (2 * (gaps + 1)) }
{}

/// The fewest gaps are those of the fewest ends: no bound by ends is below them. It does nothing: its contract is the
/// law.
pub fn fewest_gaps()
    ensures { (f : Fingers) → AreFingers f → (order : List NetNo) → IsOrder f order
        → (ends : ℕ) → AreFewestEnds f order ends → AreFewestGaps f (gaps_with ends) }
{}

/// The states along an order count the ends of its choices exactly: every list of choices results in `ends` ends or
/// more exactly where each one has at least `ends` as a graph (`all`). Where not every list results in `ends + 1` or
/// more, some choices have at most `ends` (`some`). It does nothing: its contract is the law.
pub fn known_ends()
    ensures all { (f : Fingers) → AreFingers f → (order : List NetNo) → IsOrder f order
        → (levels : List Level) → AreLevels f order levels → (ends : ℕ) → Ends levels [] ends
        ↔ ((choices : List (List Edge)) → AreChoices f order choices → ends ≤ ends_in f choices) }
    ensures some { (f : Fingers) → AreFingers f → (order : List NetNo) → IsOrder f order
        → (levels : List Level) → AreLevels f order levels
        → (ends : ℕ) → (Ends levels [] (ends + 1) → ⊥) → HasChoices f order ends }
{}
