ghost use Rattle.std.specs.Prelude.{ℕ, suc, ◌≡◌, ◌+◌, ◌<◌, ◌≤◌, ◌==◌, Bool, true, None};
ghost use Rattle.std.specs.Prelude.{List, [], map, length, All, count_by};
ghost use Rattle.cell_num.specs.declared.net.NetNo.{NetNo};
ghost use Rattle.cell_num.specs.declared.net.Pins.{Pins};
ghost use Rattle.cell_num.specs.declared.finger.Fingers.{Fingers};
ghost use Rattle.row_model.specs.declared.column.Column.{Column};
ghost use Rattle.row_model.specs.Gaps.{gaps_of};
ghost use Rattle.row_model.specs.Arrangement.{IsColumn, IsArrangement};
ghost use Rattle.row_place.specs.Places.{placement_of};
ghost use Rattle.channel_route.specs.declared.routing.Trunk.{Trunk};
ghost use Rattle.channel_route.specs.declared.routing.Routing.{Routing};
ghost use Rattle.channel_route.specs.Routing.{IsLegal};
ghost use Rattle.channel_route.specs.Wiring.{wiring_of};
ghost use Rattle.row_state.specs.declared.kind.Kinds.{Kinds};
ghost use Rattle.row_state.specs.declared.state.State.{State};
ghost use Rattle.row_state.specs.declared.step.Step.{Step};
ghost use Rattle.row_state.specs.Completion.{Completes, Need, cost_of};
ghost use Rattle.row_state.specs.Start.{start_of, GatesAreNets, AreKinds, HasFingers};
ghost use Rattle.row_state.specs.Steps.{column_of, state_after, IsPossible};
ghost use Rattle.track_ways.specs.Lines.{is_ahead, is_open, Fits};
ghost use Rattle.track_ways.specs.Channel.{AreTrunks};
ghost use Rattle.track_ways.specs.Rows.{lines_before, lines_behind, lines_of_row};
ghost use Rattle.track_ways.specs.States.{is_open_at, IsBehind};
ghost use Rattle.track_ways.specs.Paths.{Ends, EndsBy, Goes, GoesBy, Leads, Runs};
ghost use Rattle.track_ways.specs.Fails.{Fails, FailsBy};

use crate::rule::TrackRule;

/// Which nets are open after a prefix follows from its state. It does nothing: its contract is the law.
pub fn open_by_states()
    ensures { (pins : Pins) (k : Kinds) (prefix rest : List Column) (s : State) (net : NetNo)
        → All IsColumn prefix → IsBehind k prefix s → Completes k s rest
        → is_open pins (is_ahead (lines_before None None prefix)) (is_ahead (lines_behind s.p_end s.n_end rest)) net
        ≡ is_open_at pins k s net }
{}

/// The tracks of legal routings are those along paths of states. It does nothing: its contract is the law.
pub fn tracks_by_states()
    // a legal routing of a row gives tracks along its path, from any tracks before it
    ensures path { (pins : Pins) (k : Kinds) (steps : List Step) (r : Routing) (limit : ℕ) (track : NetNo → ℕ)
        → GatesAreNets k → Leads k (start_of k) steps → length (map (column_of k) steps) ≤ 32
        → IsLegal (placement_of (map (column_of k) steps)) pins r → r.tracks ≤ limit
        → Runs pins limit k (start_of k) track steps }
    // tracks along a path are one track for each net, which fits every line
    ensures one { (pins : Pins) (k : Kinds) (steps : List Step) (limit : ℕ) (track : NetNo → ℕ)
        → GatesAreNets k → Leads k (start_of k) steps → Runs pins limit k (start_of k) track steps
        → (of : NetNo → ℕ) × Fits pins limit of (is_ahead []) (lines_of_row (map (column_of k) steps)) }
    // of what is before a state the tracks of its open nets alone count
    ensures again { (pins : Pins) (limit : ℕ) (k : Kinds) (s : State) (track other : NetNo → ℕ) (steps : List Step)
        → GatesAreNets k → Leads k s steps
        → ((net : NetNo) → is_open_at pins k s net ≡ true → track net ≡ other net)
        → Runs pins limit k s track steps → Runs pins limit k s other steps }
    // where no path goes on fewer tracks, no legal routing of an arrangement has fewer
    ensures fewest { (pins : Pins) (f : Fingers) (k : Kinds) (limit : ℕ) → AreKinds f k → GatesAreNets k
        → ((steps : List Step) (track : NetNo → ℕ) (fewer : ℕ) → fewer < limit → Leads k (start_of k) steps
        → IsArrangement (map (column_of k) steps) f → Runs pins fewer k (start_of k) track steps → ⊥)
        → (row : List Column) (r : Routing) → IsArrangement row f → length row ≤ 32
        → IsLegal (placement_of row) pins r → limit ≤ r.tracks }
    // and the trunks on the tracks of a path on the fewest are a legal routing
    ensures legal { (pins : Pins) (k : Kinds) (steps : List Step) (limit : ℕ) (of : NetNo → ℕ) (trunks : List Trunk)
        → GatesAreNets k → Leads k (start_of k) steps → length (map (column_of k) steps) ≤ 32
        → Fits pins limit of (is_ahead []) (lines_of_row (map (column_of k) steps))
        → ((track : NetNo → ℕ) (fewer : ℕ) → fewer < limit → Runs pins fewer k (start_of k) track steps → ⊥)
        → AreTrunks (placement_of (map (column_of k) steps)) pins of trunks
        → IsLegal (placement_of (map (column_of k) steps)) pins (wiring_of limit trunks) }
{}

/// The rules by which it is shown that no completion of a state has tracks below a limit, where any rule says how
/// tracks go through a line. It does nothing: its contract is the law.
pub fn failures_by<R: TrackRule>()
    // each next column fails that does not cost more than the gaps, whatever the tracks after it are: of these the
    // ones of the open nets are listed
    ensures branch { (pins : Pins) (limit : ℕ) (k : Kinds) (s : State) (track : NetNo → ℕ) (gaps : ℕ)
        → GatesAreNets k → HasFingers k s
        → ((step : Step) (next : NetNo → ℕ) (left : ℕ) → IsPossible k s step
        → cost_of s (column_of k step) + left ≡ gaps → GoesBy R.fits pins limit k s track step next
        → (listed : NetNo → ℕ)
        × ((net : NetNo) → is_open_at pins k (state_after k s step) net ≡ true → next net ≡ listed net)
        × FailsBy R.fits pins limit k (state_after k s step) listed left)
        → FailsBy R.fits pins limit k s track gaps }
    // no finger is left, and no tracks go through the last line
    ensures at_end { (pins : Pins) (limit : ℕ) (k : Kinds) (s : State) (track : NetNo → ℕ) (gaps : ℕ)
        → GatesAreNets k → (HasFingers k s → ⊥) → (EndsBy R.fits pins limit k s track → ⊥)
        → FailsBy R.fits pins limit k s track gaps }
    // the state needs more gaps
    ensures needs_more { (pins : Pins) (limit : ℕ) (k : Kinds) (s : State) (track : NetNo → ℕ) (gaps bound : ℕ)
        → GatesAreNets k → Need k s bound → gaps < bound → FailsBy R.fits pins limit k s track gaps }
    // it fails with as many gaps or more, and with the same tracks for its open nets
    ensures weaker { (pins : Pins) (limit : ℕ) (k : Kinds) (s : State) (track other : NetNo → ℕ) (gaps fewer : ℕ)
        → GatesAreNets k → fewer ≤ gaps
        → ((net : NetNo) → is_open_at pins k s net ≡ true → other net ≡ track net)
        → FailsBy R.fits pins limit k s track gaps → FailsBy R.fits pins limit k s other fewer }
    // more nets are open than there are tracks
    ensures too_many_open { (pins : Pins) (limit : ℕ) (k : Kinds) (s : State) (track : NetNo → ℕ) (gaps : ℕ)
        (nets : List NetNo) → GatesAreNets k → ((n : ℕ) → count_by (λ (net : NetNo). net.0 == n) nets ≤ 1)
        → All (λ net. is_open_at pins k s net ≡ true) nets → limit < length nets
        → FailsBy R.fits pins limit k s track gaps }
{}

/// The rules by which it is shown that no completion of a state has tracks below a limit. It does nothing: its
/// contract is the law.
pub fn failures()
    // each next column fails that does not cost more than the gaps, whatever the tracks after it are: of these the
    // ones of the open nets are listed
    ensures branch { (pins : Pins) (limit : ℕ) (k : Kinds) (s : State) (track : NetNo → ℕ) (gaps : ℕ)
        → GatesAreNets k → HasFingers k s
        → ((step : Step) (next : NetNo → ℕ) (left : ℕ) → IsPossible k s step
        → cost_of s (column_of k step) + left ≡ gaps → Goes pins limit k s track step next
        → (listed : NetNo → ℕ)
        × ((net : NetNo) → is_open_at pins k (state_after k s step) net ≡ true → next net ≡ listed net)
        × Fails pins limit k (state_after k s step) listed left)
        → Fails pins limit k s track gaps }
    // no finger is left, and no tracks go through the last line
    ensures at_end { (pins : Pins) (limit : ℕ) (k : Kinds) (s : State) (track : NetNo → ℕ) (gaps : ℕ)
        → GatesAreNets k → (HasFingers k s → ⊥) → (Ends pins limit k s track → ⊥) → Fails pins limit k s track gaps }
    // the state needs more gaps
    ensures needs_more { (pins : Pins) (limit : ℕ) (k : Kinds) (s : State) (track : NetNo → ℕ) (gaps bound : ℕ)
        → GatesAreNets k → Need k s bound → gaps < bound → Fails pins limit k s track gaps }
    // it fails with as many gaps or more, and with the same tracks for its open nets
    ensures weaker { (pins : Pins) (limit : ℕ) (k : Kinds) (s : State) (track other : NetNo → ℕ) (gaps fewer : ℕ)
        → GatesAreNets k → fewer ≤ gaps
        → ((net : NetNo) → is_open_at pins k s net ≡ true → other net ≡ track net)
        → Fails pins limit k s track gaps → Fails pins limit k s other fewer }
    // more nets are open than there are tracks
    ensures too_many_open { (pins : Pins) (limit : ℕ) (k : Kinds) (s : State) (track : NetNo → ℕ) (gaps : ℕ)
        (nets : List NetNo) → GatesAreNets k → ((n : ℕ) → count_by (λ (net : NetNo). net.0 == n) nets ≤ 1)
        → All (λ net. is_open_at pins k s net ≡ true) nets → limit < length nets
        → Fails pins limit k s track gaps }
    // where the first state fails, each legal routing of an arrangement with at most N gaps has more tracks
    ensures more_tracks { (pins : Pins) (f : Fingers) (k : Kinds) (limit gaps : ℕ) (track : NetNo → ℕ)
        → AreKinds f k → GatesAreNets k → Fails pins limit k (start_of k) track gaps
        → (row : List Column) (r : Routing) → IsArrangement row f → length row ≤ 32 → gaps_of row ≤ gaps
        → IsLegal (placement_of row) pins r → limit < r.tracks }
    // where it fails and a path goes on one track more, the trunks on the tracks of that path are a legal routing
    ensures found { (pins : Pins) (k : Kinds) (limit gaps : ℕ) (start of : NetNo → ℕ) (steps : List Step)
        (trunks : List Trunk) → GatesAreNets k → Fails pins limit k (start_of k) start gaps
        → Leads k (start_of k) steps → length (map (column_of k) steps) ≤ 32
        → gaps_of (map (column_of k) steps) ≤ gaps
        → Fits pins (suc limit) of (is_ahead []) (lines_of_row (map (column_of k) steps))
        → AreTrunks (placement_of (map (column_of k) steps)) pins of trunks
        → IsLegal (placement_of (map (column_of k) steps)) pins (wiring_of (suc limit) trunks) }
{}
