ghost use Rattle.std.specs.Prelude.{ℕ, ◌≡◌, ◌↔◌, false, true, List, [], ◌∷◌, Any, Contains};
ghost use Rattle.cell_num.specs.declared.net.NetNo.{NetNo};
ghost use Rattle.cell_num.specs.declared.net.Pins.{Pins};
ghost use Rattle.row_state.specs.declared.kind.Kinds.{Kinds};
ghost use Rattle.row_state.specs.declared.state.State.{State};
ghost use Rattle.row_state.specs.declared.step.Step.{Step};
ghost use Rattle.row_state.specs.Start.{AreSomeKinds, GatesAreNets, IsState};
ghost use Rattle.row_state.specs.Steps.{state_after};
ghost use Rattle.track_ways.specs.Crowds.{end_uncrowded, step_uncrowded};
ghost use Rattle.track_ways.specs.Paths.{Ends, EndsBy, EndsFit, Goes, GoesBy, Leads, RunsBy};
ghost use Rattle.track_ways.specs.States.{is_behind, is_open_at, is_still_ahead};
ghost use Rattle.track_ways.specs.declared.track.NetTrack.{NetTrack};
ghost use Rattle.track_ways.specs.Tracks.{AreKeys, AreTracksOf, IsSingle};
ghost use Rattle.track_ways.specs.Ways.{ends_ways, ends_ways_by, goes_ways, goes_ways_by, is_behind_step};

use crate::rule::TrackRule;

/// The tracks after a next column can be listed by any rule. It does nothing: its contract is the law.
pub fn tracks_listed_by<R: TrackRule>()
    // each way of tracks through the next column is listed
    ensures all { (pins : Pins) (limit : ℕ) (k : Kinds) (s : State) (step : Step) (tracks : List NetTrack)
        (track next : NetNo → ℕ) → AreTracksOf tracks track → GoesBy R.fits pins limit k s track step next
        → Any (λ way. AreTracksOf way next) (goes_ways_by R.ways pins limit k s tracks step) }
    // whatever is listed is one
    ensures only { (pins : Pins) (limit : ℕ) (k : Kinds) (s : State) (step : Step) (tracks way : List NetTrack)
        → AreSomeKinds k → IsState k s → IsSingle tracks
        → Contains (goes_ways_by R.ways pins limit k s tracks step) way
        → (track : NetNo → ℕ) × (next : NetNo → ℕ)
        × AreTracksOf tracks track × GoesBy R.fits pins limit k s track step next × AreTracksOf way next }
    // it has one track for each net that is open after the column, and none for others
    ensures keys { (pins : Pins) (limit : ℕ) (k : Kinds) (s : State) (step : Step) (tracks way : List NetTrack)
        → AreSomeKinds k → IsState k s → IsSingle tracks
        → Contains (goes_ways_by R.ways pins limit k s tracks step) way
        → AreKeys pins (is_behind_step k s step) (is_still_ahead k (state_after k s step)) way }
    // none is listed after the last line exactly where no tracks go through it
    ensures ends { (pins : Pins) (limit : ℕ) (k : Kinds) (s : State) (tracks : List NetTrack)
        → AreSomeKinds k → IsState k s → IsSingle tracks
        → (ends_ways_by R.ways pins limit k s tracks ≡ [])
        ↔ ((track : NetNo → ℕ) → AreTracksOf tracks track → EndsBy R.fits pins limit k s track → ⊥) }
    // none is listed through a crowded line
    ensures crowded { (pins : Pins) (limit : ℕ) (k : Kinds) (s : State) (step : Step) (tracks : List NetTrack)
        → AreSomeKinds k → IsState k s → step_uncrowded pins limit k s step ≡ false
        → goes_ways_by R.ways pins limit k s tracks step ≡ [] }
    ensures crowded_end { (pins : Pins) (limit : ℕ) (k : Kinds) (s : State) (tracks : List NetTrack)
        → AreSomeKinds k → IsState k s → end_uncrowded pins limit k s ≡ false
        → ends_ways_by R.ways pins limit k s tracks ≡ [] }
    // of what is before a state the tracks of its open nets alone count
    ensures again { (pins : Pins) (limit : ℕ) (k : Kinds) (s : State) (track other : NetNo → ℕ) (steps : List Step)
        → GatesAreNets k → Leads k s steps
        → ((net : NetNo) → is_open_at pins k s net ≡ true → track net ≡ other net)
        → RunsBy R.fits pins limit k s track steps → RunsBy R.fits pins limit k s other steps }
{}

/// The tracks after a next column can be listed. It does nothing: its contract is the law.
pub fn tracks_listed()
    // each way of tracks through the next column is listed
    ensures all { (pins : Pins) (limit : ℕ) (k : Kinds) (s : State) (step : Step) (tracks : List NetTrack)
        (track next : NetNo → ℕ) → AreTracksOf tracks track → Goes pins limit k s track step next
        → Any (λ way. AreTracksOf way next) (goes_ways pins limit k s tracks step) }
    // whatever is listed is one
    ensures only { (pins : Pins) (limit : ℕ) (k : Kinds) (s : State) (step : Step) (tracks way : List NetTrack)
        → AreSomeKinds k → IsState k s → IsSingle tracks → Contains (goes_ways pins limit k s tracks step) way
        → (track : NetNo → ℕ) × (next : NetNo → ℕ)
        × AreTracksOf tracks track × Goes pins limit k s track step next × AreTracksOf way next }
    // it has one track for each net that is open after the column, and none for others
    ensures keys { (pins : Pins) (limit : ℕ) (k : Kinds) (s : State) (step : Step) (tracks way : List NetTrack)
        → AreSomeKinds k → IsState k s → IsSingle tracks → Contains (goes_ways pins limit k s tracks step) way
        → AreKeys pins (is_behind_step k s step) (is_still_ahead k (state_after k s step)) way }
    // those nets are open at the state after it, where a completion goes on from there
    ensures behind { (k : Kinds) (s : State) (step : Step) (steps : List Step)
        → GatesAreNets k → EndsFit k s → Leads k s (step ∷ steps)
        → (net : NetNo) → is_behind_step k s step net ≡ is_behind k (state_after k s step) net }
    // none is listed after the last line exactly where no tracks go through it
    ensures ends { (pins : Pins) (limit : ℕ) (k : Kinds) (s : State) (tracks : List NetTrack)
        → AreSomeKinds k → IsState k s → IsSingle tracks
        → (ends_ways pins limit k s tracks ≡ [])
        ↔ ((track : NetNo → ℕ) → AreTracksOf tracks track → Ends pins limit k s track → ⊥) }
{}
