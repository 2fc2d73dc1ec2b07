ghost use Rattle.std.specs.Prelude.{◌≡◌, ◌≢◌, ◌+◌, ◌<◌, ◌≤◌, ℕ, List, Some, length, slice_get, All};
ghost use Rattle.row_model.specs.declared.column.Column.{Column};
ghost use Rattle.row_model.specs.Arrangement.{IsColumn};
ghost use Rattle.row_place.specs.declared.placement.NodePlace.{NodePlace};
ghost use Rattle.row_place.specs.declared.placement.GatePlace.{GatePlace};
ghost use Rattle.row_place.specs.declared.placement.Placement.{Placement};
ghost use Rattle.row_place.specs.Units.{gap_between, unit_of, seats_of};
ghost use Rattle.row_place.specs.Places.{IsNode, IsGate, IsPlacement, placement_of};

use crate::MOST_NODES;
use cell_num::MOST_COLUMNS;

/// Each column of a row has the unit that its place gives; node lines and gate lines alternate. It does
/// nothing: its contract is the law.
pub fn rows_on_lines()
    ensures seats { (row : List Column) (at : ℕ) (column : Column) → slice_get row at ≡ Some column
        → slice_get (seats_of row) at ≡ Some (record { column = column; unit = unit_of row at }) }
    ensures columns { (row : List Column) → length (seats_of row) ≡ length row }
    ensures next { (row : List Column) (at : ℕ) (a b : Column)
        → slice_get row at ≡ Some a → slice_get row (at + 1) ≡ Some b
        → unit_of row (at + 1) ≡ unit_of row at + length (gap_between (Some a) b) + 1 }
    ensures nodes_apart { (row : List Column) (a b : NodePlace) → IsNode row a → IsNode row b
        → a.line < b.line → a.line + 2 ≤ b.line }
    ensures gates_apart { (row : List Column) (a b : GatePlace) → IsGate row a → IsGate row b
        → a.line < b.line → a.line + 2 ≤ b.line }
    ensures alternate { (row : List Column) (node : NodePlace) (gate : GatePlace)
        → IsNode row node → IsGate row gate → node.line ≢ gate.line }
{}

/// A row of at most `MOST_COLUMNS` columns has one placement, with few places. It does nothing: its contract is
/// the law.
pub fn one_placement()
    ensures is { (row : List Column) → All IsColumn row → length row ≤ MOST_COLUMNS
        → IsPlacement (placement_of row) }
    ensures only { (placement : Placement) → IsPlacement placement
        → placement ≡ placement_of placement.row }
    ensures few_nodes { (placement : Placement) → IsPlacement placement
        → length placement.nodes ≤ MOST_NODES }
    ensures few_gates { (placement : Placement) → IsPlacement placement
        → length placement.gates ≤ MOST_COLUMNS }
{}
