ghost use Rattle.std.specs.Prelude.{ℕ, ◌≡◌, ◌+◌, ◌*◌, ◌<◌, ◌≤◌, ◌⊎◌, List, [], ◌∷◌, Option, None, length, sum};
ghost use Rattle.cell_num.specs.declared.net.NetNo.{NetNo};
ghost use Rattle.cell_num.specs.declared.net.Pins.{Pins};
ghost use Rattle.cell_num.specs.declared.finger.Fingers.{Fingers};
ghost use Rattle.row_model.specs.declared.column.Column.{Column};
ghost use Rattle.row_model.specs.Gaps.{gaps_of};
ghost use Rattle.row_model.specs.Arrangement.{IsArrangement};
ghost use Rattle.row_place.specs.Places.{placement_of};
ghost use Rattle.channel_route.specs.declared.routing.Routing.{Routing};
ghost use Rattle.channel_route.specs.Routing.{IsLegal};
ghost use Rattle.row_compact.specs.declared.distance.Distances.{Distances};
ghost use Rattle.row_compact.specs.Allowed.{AreDistances, stretches_of};
ghost use Rattle.row_compact.specs.Solution.{x_of, IsLeast};
ghost use Rattle.row_state.specs.declared.kind.Kinds.{Kinds};
ghost use Rattle.row_state.specs.declared.state.State.{State};
ghost use Rattle.row_state.specs.declared.step.Step.{Step};
ghost use Rattle.row_state.specs.Completion.{Need, cost_of};
ghost use Rattle.row_state.specs.Start.{start_of, AreKinds, GatesAreNets, HasFingers};
ghost use Rattle.row_state.specs.Steps.{column_of, state_after, IsPossible};
ghost use Rattle.line_widths.specs.Borders.{Border};
ghost use Rattle.line_widths.specs.StateBorders.{borders_behind, borders_to};
ghost use Rattle.line_widths.specs.TooWide.{AreSameAt, CountAlike, FitsEnd, FitsTo, IsTooWide, last_of, spaces_after};

/// The rules by which it is shown that no row of a cell is as narrow as that. It does nothing: its contract is the law.
pub fn too_wide()
    // each next column that does not cost more than the gaps, and each track for its nets, is too wide already or leads
    // to a state that is too wide for what is left of the width
    ensures branch { (pins : Pins) (limit : ℕ) (k : Kinds) (s : State) (track : NetNo → ℕ) (last : Option Border)
        (gaps width : ℕ) → GatesAreNets k → HasFingers k s
        → ((step : Step) (of : NetNo → ℕ) (left : ℕ) → IsPossible k s step → cost_of s (column_of k step) + left ≡ gaps
        → AreSameAt pins k s track of → FitsTo pins limit k s of step
        → (width < sum (spaces_after last (borders_to pins k s of step)))
        ⊎ ((rest : ℕ) × (sum (spaces_after last (borders_to pins k s of step)) + rest ≡ width)
        × IsTooWide pins limit k (state_after k s step) of (last_of last (borders_to pins k s of step)) left rest))
        → IsTooWide pins limit k s track last gaps width }
    // no finger is left, and each track through the last line is too wide
    ensures at_end { (pins : Pins) (limit : ℕ) (k : Kinds) (s : State) (track : NetNo → ℕ) (last : Option Border)
        (gaps width : ℕ) → GatesAreNets k → (HasFingers k s → ⊥)
        → ((of : NetNo → ℕ) → AreSameAt pins k s track of → FitsEnd pins limit k s of
        → width < sum (spaces_after last (borders_behind pins k s of [])))
        → IsTooWide pins limit k s track last gaps width }
    // the state needs more gaps
    ensures needs_more { (pins : Pins) (limit : ℕ) (k : Kinds) (s : State) (track : NetNo → ℕ) (last : Option Border)
        (gaps width bound : ℕ) → GatesAreNets k → Need k s bound → gaps < bound
        → IsTooWide pins limit k s track last gaps width }
    // it is too wide with as many gaps or more and as much width or more, the same tracks for its open nets, and a last
    // gate line that counts alike
    ensures weaker { (pins : Pins) (limit : ℕ) (k : Kinds) (s : State) (track other : NetNo → ℕ)
        (last like : Option Border) (gaps fewer width less : ℕ)
        → fewer ≤ gaps → less ≤ width → AreSameAt pins k s track other → CountAlike last like
        → IsTooWide pins limit k s track last gaps width → IsTooWide pins limit k s other like fewer less }
    // where the first state is too wide, so is each arrangement with at most so many gaps, in each legal routing on as
    // many tracks as the limit or fewer: its last line stands further on than 8 and the width
    ensures wider { (pins : Pins) (f : Fingers) (k : Kinds) (limit : ℕ) (track : NetNo → ℕ) (gaps width : ℕ)
        → AreKinds f k → GatesAreNets k → IsTooWide pins limit k (start_of k) track None gaps width
        → (row : List Column) (r : Routing) (d : Distances) (xs : List ℕ)
        → IsArrangement row f → length row ≤ 32 → gaps_of row ≤ gaps
        → IsLegal (placement_of row) pins r → r.tracks ≤ limit
        → AreDistances (placement_of row) pins (stretches_of r.trunks) d → IsLeast d xs
        → 8 + width < x_of xs (2 * length (placement_of row).units) }
{}
