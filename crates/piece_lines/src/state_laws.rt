ghost use Rattle.std.specs.Prelude.{ℕ, ◌≡◌, ◌<◌, ◌≤◌, true, List, [], map, length};
ghost use Rattle.cell_num.specs.declared.net.NetNo.{NetNo};
ghost use Rattle.cell_num.specs.declared.net.Pins.{Pins};
ghost use Rattle.cell_num.specs.declared.finger.Fingers.{Fingers};
ghost use Rattle.row_model.specs.declared.column.Column.{Column};
ghost use Rattle.row_model.specs.Arrangement.{IsArrangement};
ghost use Rattle.row_place.specs.Places.{placement_of};
ghost use Rattle.row_place.specs.Trunks.{HasPins};
ghost use Rattle.channel_route.specs.declared.routing.Trunk.{Trunk};
ghost use Rattle.row_state.specs.declared.kind.Kinds.{Kinds};
ghost use Rattle.row_state.specs.declared.state.State.{State};
ghost use Rattle.row_state.specs.declared.step.Step.{Step};
ghost use Rattle.row_state.specs.Start.{start_of, GatesAreNets, AreKinds};
ghost use Rattle.row_state.specs.Steps.{column_of};
ghost use Rattle.track_ways.specs.Lines.{is_ahead};
ghost use Rattle.track_ways.specs.Rows.{lines_of_row};
ghost use Rattle.track_ways.specs.States.{is_open_at};
ghost use Rattle.track_ways.specs.Paths.{Leads};
ghost use Rattle.dogleg_route.specs.declared.piece.PieceRouting.{PieceRouting};
ghost use Rattle.dogleg_route.specs.Routings.{ArePiecesLegal};
ghost use Rattle.piece_lines.specs.Lines.{PieceSweeps};
ghost use Rattle.piece_lines.specs.Paths.{PieceRuns};
ghost use Rattle.piece_lines.specs.Within.{routing_on};

/// The tracks of legal routings by pieces are those along paths of states. It does nothing: its contract is the law.
pub fn pieces_by_states()
    // a legal routing of a row gives tracks along its path, from any tracks before it
    ensures path { (pins : Pins) (k : Kinds) (steps : List Step) (r : PieceRouting) (limit : ℕ) (track : NetNo → ℕ)
        → GatesAreNets k → Leads k (start_of k) steps → length (map (column_of k) steps) ≤ 32
        → ArePiecesLegal (placement_of (map (column_of k) steps)) pins r → r.tracks ≤ limit
        → PieceRuns pins limit k (start_of k) track steps }
    // tracks along a path are tracks through the lines of the row
    ensures one { (pins : Pins) (k : Kinds) (steps : List Step) (limit : ℕ) (track : NetNo → ℕ)
        → GatesAreNets k → Leads k (start_of k) steps → PieceRuns pins limit k (start_of k) track steps
        → PieceSweeps pins limit (is_ahead []) track (lines_of_row (map (column_of k) steps)) }
    // of what is before a state the tracks of its open nets alone count
    ensures again { (pins : Pins) (limit : ℕ) (k : Kinds) (s : State) (track other : NetNo → ℕ) (steps : List Step)
        → GatesAreNets k → Leads k s steps
        → ((net : NetNo) → is_open_at pins k s net ≡ true → track net ≡ other net)
        → PieceRuns pins limit k s track steps → PieceRuns pins limit k s other steps }
    // where no path goes on fewer tracks, no legal routing of an arrangement has fewer
    ensures fewest { (pins : Pins) (f : Fingers) (k : Kinds) (limit : ℕ) → AreKinds f k → GatesAreNets k
        → ((steps : List Step) (track : NetNo → ℕ) (fewer : ℕ) → fewer < limit → Leads k (start_of k) steps
        → IsArrangement (map (column_of k) steps) f → PieceRuns pins fewer k (start_of k) track steps → ⊥)
        → (row : List Column) (r : PieceRouting) → IsArrangement row f → length row ≤ 32
        → ArePiecesLegal (placement_of row) pins r → limit ≤ r.tracks }
    // and a path on the fewest has a legal routing on as many
    ensures legal { (pins : Pins) (k : Kinds) (steps : List Step) (limit : ℕ) (track : NetNo → ℕ)
        → GatesAreNets k → Leads k (start_of k) steps → length (map (column_of k) steps) ≤ 32
        → HasPins (placement_of (map (column_of k) steps)) pins
        → PieceRuns pins limit k (start_of k) track steps
        → ((other : NetNo → ℕ) (fewer : ℕ) → fewer < limit → PieceRuns pins fewer k (start_of k) other steps → ⊥)
        → (list : List Trunk) × ArePiecesLegal (placement_of (map (column_of k) steps)) pins (routing_on limit list) }
{}
