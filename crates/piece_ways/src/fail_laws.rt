ghost use Rattle.std.specs.Prelude.{ℕ, suc, ◌≡◌, ◌+◌, ◌==◌, ◌<◌, ◌≤◌, true, List, All, count_by, length, map};
ghost use Rattle.cell_num.specs.declared.net.NetNo.{NetNo};
ghost use Rattle.cell_num.specs.declared.net.Pins.{Pins};
ghost use Rattle.cell_num.specs.declared.finger.Fingers.{Fingers};
ghost use Rattle.row_model.specs.declared.column.Column.{Column};
ghost use Rattle.row_model.specs.Arrangement.{IsArrangement};
ghost use Rattle.row_model.specs.Gaps.{gaps_of};
ghost use Rattle.row_place.specs.Places.{placement_of};
ghost use Rattle.row_place.specs.Trunks.{HasPins};
ghost use Rattle.channel_route.specs.declared.routing.Trunk.{Trunk};
ghost use Rattle.row_state.specs.declared.kind.Kinds.{Kinds};
ghost use Rattle.row_state.specs.declared.state.State.{State};
ghost use Rattle.row_state.specs.declared.step.Step.{Step};
ghost use Rattle.row_state.specs.Completion.{Need, cost_of};
ghost use Rattle.row_state.specs.Start.{start_of, GatesAreNets, AreKinds, HasFingers};
ghost use Rattle.row_state.specs.Steps.{column_of, state_after, IsPossible};
ghost use Rattle.track_ways.specs.States.{is_open_at};
ghost use Rattle.track_ways.specs.Paths.{Leads};
ghost use Rattle.dogleg_route.specs.declared.piece.PieceRouting.{PieceRouting};
ghost use Rattle.dogleg_route.specs.Routings.{ArePiecesLegal};
ghost use Rattle.piece_lines.specs.Paths.{PieceEnds, PieceGoes, PieceRuns};
ghost use Rattle.piece_lines.specs.Within.{routing_on};
ghost use Rattle.piece_ways.specs.PieceFails.{PieceFails};

/// The rules by which it is shown that no completion of a state has tracks of pieces below a limit. It does nothing:
/// its contract is the law.
pub fn piece_failures()
    // each next column fails that does not cost more than the gaps, whatever the tracks after it are: of these the
    // ones of the open nets are listed
    ensures branch { (pins : Pins) (limit : ℕ) (k : Kinds) (s : State) (track : NetNo → ℕ) (gaps : ℕ)
        → GatesAreNets k → HasFingers k s
        → ((step : Step) (next : NetNo → ℕ) (left : ℕ) → IsPossible k s step
        → cost_of s (column_of k step) + left ≡ gaps → PieceGoes pins limit k s track step next
        → (listed : NetNo → ℕ)
        × ((net : NetNo) → is_open_at pins k (state_after k s step) net ≡ true → next net ≡ listed net)
        × PieceFails pins limit k (state_after k s step) listed left)
        → PieceFails pins limit k s track gaps }
    // no finger is left, and no tracks go through the last line
    ensures at_end { (pins : Pins) (limit : ℕ) (k : Kinds) (s : State) (track : NetNo → ℕ) (gaps : ℕ)
        → GatesAreNets k → (HasFingers k s → ⊥) → (PieceEnds pins limit k s track → ⊥)
        → PieceFails pins limit k s track gaps }
    // the state needs more gaps
    ensures needs_more { (pins : Pins) (limit : ℕ) (k : Kinds) (s : State) (track : NetNo → ℕ) (gaps bound : ℕ)
        → GatesAreNets k → Need k s bound → gaps < bound → PieceFails pins limit k s track gaps }
    // it fails with as many gaps or more, and with the same tracks for its open nets
    ensures weaker { (pins : Pins) (limit : ℕ) (k : Kinds) (s : State) (track other : NetNo → ℕ) (gaps fewer : ℕ)
        → GatesAreNets k → fewer ≤ gaps
        → ((net : NetNo) → is_open_at pins k s net ≡ true → other net ≡ track net)
        → PieceFails pins limit k s track gaps → PieceFails pins limit k s other fewer }
    // more nets are open than there are tracks
    ensures too_many_open { (pins : Pins) (limit : ℕ) (k : Kinds) (s : State) (track : NetNo → ℕ) (gaps : ℕ)
        (nets : List NetNo) → GatesAreNets k → ((n : ℕ) → count_by (λ (net : NetNo). net.0 == n) nets ≤ 1)
        → All (λ net. is_open_at pins k s net ≡ true) nets → limit < length nets
        → PieceFails pins limit k s track gaps }
    // where the first state fails, each legal routing by pieces of an arrangement with at most N gaps has more tracks
    ensures more_tracks { (pins : Pins) (f : Fingers) (k : Kinds) (limit gaps : ℕ) (track : NetNo → ℕ)
        → AreKinds f k → GatesAreNets k → PieceFails pins limit k (start_of k) track gaps
        → (row : List Column) (r : PieceRouting) → IsArrangement row f → length row ≤ 32 → gaps_of row ≤ gaps
        → ArePiecesLegal (placement_of row) pins r → limit < r.tracks }
    // where it fails and a path goes on one track more, the row of that path has a legal routing by pieces on as many
    ensures found { (pins : Pins) (k : Kinds) (limit gaps : ℕ) (start track : NetNo → ℕ) (steps : List Step)
        → GatesAreNets k → PieceFails pins limit k (start_of k) start gaps
        → Leads k (start_of k) steps → length (map (column_of k) steps) ≤ 32
        → gaps_of (map (column_of k) steps) ≤ gaps → HasPins (placement_of (map (column_of k) steps)) pins
        → PieceRuns pins (suc limit) k (start_of k) track steps
        → (list : List Trunk)
        × ArePiecesLegal (placement_of (map (column_of k) steps)) pins (routing_on (suc limit) list) }
{}
