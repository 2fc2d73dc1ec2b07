ghost use Rattle.std.specs.Prelude.{ℕ, ◌≡◌, ◌↔◌, false, List, [], Any, Contains};
ghost use Rattle.cell_num.specs.declared.net.NetNo.{NetNo};
ghost use Rattle.cell_num.specs.declared.net.Pins.{Pins};
ghost use Rattle.row_state.specs.declared.kind.Kinds.{Kinds};
ghost use Rattle.row_state.specs.declared.state.State.{State};
ghost use Rattle.row_state.specs.declared.step.Step.{Step};
ghost use Rattle.row_state.specs.Start.{AreSomeKinds, IsState};
ghost use Rattle.row_state.specs.Steps.{state_after};
ghost use Rattle.track_ways.specs.Crowds.{end_uncrowded, step_uncrowded};
ghost use Rattle.track_ways.specs.States.{is_still_ahead};
ghost use Rattle.track_ways.specs.declared.track.NetTrack.{NetTrack};
ghost use Rattle.track_ways.specs.Tracks.{AreKeys, AreTracksOf, IsSingle};
ghost use Rattle.track_ways.specs.Ways.{is_behind_step};
ghost use Rattle.piece_lines.specs.Paths.{PieceEnds, PieceGoes};
ghost use Rattle.piece_ways.specs.PieceWays.{piece_ends_ways, piece_goes_ways};

/// The tracks after a next column can be listed where nets may turn, too. It does nothing: its contract is the law.
pub fn piece_tracks_listed()
    // each way of tracks through the next column is listed
    ensures all { (pins : Pins) (limit : ℕ) (k : Kinds) (s : State) (step : Step) (tracks : List NetTrack)
        (track next : NetNo → ℕ) → AreTracksOf tracks track → PieceGoes pins limit k s track step next
        → Any (λ way. AreTracksOf way next) (piece_goes_ways pins limit k s tracks step) }
    // whatever is listed is one
    ensures only { (pins : Pins) (limit : ℕ) (k : Kinds) (s : State) (step : Step) (tracks way : List NetTrack)
        → AreSomeKinds k → IsState k s → IsSingle tracks → Contains (piece_goes_ways pins limit k s tracks step) way
        → (track : NetNo → ℕ) × (next : NetNo → ℕ)
        × AreTracksOf tracks track × PieceGoes pins limit k s track step next × AreTracksOf way next }
    // it has one track for each net that is open after the column, and none for others
    ensures keys { (pins : Pins) (limit : ℕ) (k : Kinds) (s : State) (step : Step) (tracks way : List NetTrack)
        → AreSomeKinds k → IsState k s → IsSingle tracks → Contains (piece_goes_ways pins limit k s tracks step) way
        → AreKeys pins (is_behind_step k s step) (is_still_ahead k (state_after k s step)) way }
    // none is listed after the last line exactly where no tracks go through it
    ensures ends { (pins : Pins) (limit : ℕ) (k : Kinds) (s : State) (tracks : List NetTrack)
        → AreSomeKinds k → IsState k s → IsSingle tracks
        → (piece_ends_ways pins limit k s tracks ≡ [])
        ↔ ((track : NetNo → ℕ) → AreTracksOf tracks track → PieceEnds pins limit k s track → ⊥) }
    // none is listed through a crowded line
    ensures crowded { (pins : Pins) (limit : ℕ) (k : Kinds) (s : State) (step : Step) (tracks : List NetTrack)
        → AreSomeKinds k → IsState k s → step_uncrowded pins limit k s step ≡ false
        → piece_goes_ways pins limit k s tracks step ≡ [] }
    ensures crowded_end { (pins : Pins) (limit : ℕ) (k : Kinds) (s : State) (tracks : List NetTrack)
        → AreSomeKinds k → IsState k s → end_uncrowded pins limit k s ≡ false
        → piece_ends_ways pins limit k s tracks ≡ [] }
{}
