ghost use Rattle.std.specs.Prelude.{ℕ, ◌≡◌, ◌+◌, ◌*◌, ◌≤◌, List, length, take, sum};
ghost use Rattle.cell_num.specs.declared.net.Pins.{Pins};
ghost use Rattle.row_place.specs.declared.placement.Placement.{Placement};
ghost use Rattle.row_compact.specs.declared.distance.Distances.{Distances};
ghost use Rattle.row_compact.specs.Allowed.{Stretch, AreDistances};
ghost use Rattle.row_compact.specs.Solution.{x_of, IsLeast};
ghost use Rattle.line_widths.specs.Spaces.{AreSpaces};

/// Each of the least lines of a row stands one space after the line before it, and these spaces are known from
/// neighbouring lines alone. It does nothing: its contract is the law.
pub fn lines_by_spaces()
    // the lines of a row have one list of spaces between them
    ensures some { (placement : Placement) (pins : Pins) (stretches : List Stretch)
        → (spaces : List ℕ) × AreSpaces placement pins stretches spaces }
    ensures one { (placement : Placement) (pins : Pins) (stretches : List Stretch) (a b : List ℕ)
        → AreSpaces placement pins stretches a → AreSpaces placement pins stretches b → a ≡ b }
    // a line stands at 8 and the spaces before it
    ensures each { (placement : Placement) (pins : Pins) (stretches : List Stretch) (d : Distances) (spaces xs : List ℕ)
        → AreSpaces placement pins stretches spaces → AreDistances placement pins stretches d → IsLeast d xs
        → (line : ℕ) → line ≤ 2 * length placement.units → x_of xs line ≡ 8 + sum (take line spaces) }
    // so the last one stands at 8 and all spaces
    ensures last { (placement : Placement) (pins : Pins) (stretches : List Stretch) (d : Distances) (spaces xs : List ℕ)
        → AreSpaces placement pins stretches spaces → AreDistances placement pins stretches d → IsLeast d xs
        → x_of xs (2 * length placement.units) ≡ 8 + sum spaces }
{}
