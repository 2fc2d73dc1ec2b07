ghost use Rattle.std.specs.Prelude.{ℕ, ◌≡◌, ◌+◌, ◌≤◌, true, false, List, ◌∷◌, [], ◌++◌, map, length, sum, All};
ghost use Rattle.cell_num.specs.declared.net.NetNo.{NetNo};
ghost use Rattle.cell_num.specs.declared.net.Pins.{Pins};
ghost use Rattle.row_model.specs.declared.column.Column.{Column};
ghost use Rattle.row_model.specs.Arrangement.{IsColumn};
ghost use Rattle.row_place.specs.Places.{placement_of};
ghost use Rattle.channel_route.specs.declared.routing.Trunk.{Trunk};
ghost use Rattle.row_compact.specs.Allowed.{stretches_of};
ghost use Rattle.row_state.specs.declared.kind.Kinds.{Kinds};
ghost use Rattle.row_state.specs.declared.state.State.{State};
ghost use Rattle.row_state.specs.declared.step.Step.{Step};
ghost use Rattle.row_state.specs.Start.{start_of, GatesAreNets};
ghost use Rattle.row_state.specs.Steps.{column_of};
ghost use Rattle.track_ways.specs.Lines.{is_ahead};
ghost use Rattle.track_ways.specs.Channel.{AreTrunks};
ghost use Rattle.track_ways.specs.Rows.{lines_of_row};
ghost use Rattle.track_ways.specs.States.{is_still_ahead};
ghost use Rattle.track_ways.specs.Paths.{Leads};
ghost use Rattle.line_widths.specs.Borders.{Border, borders_of, spaces_from, spaces_of};
ghost use Rattle.line_widths.specs.Spaces.{AreSpaces};
ghost use Rattle.line_widths.specs.StateBorders.{borders_behind};

/// The spaces of a row whose nets go straight are known from its lines and the track of each net. It does nothing: its
/// contract is the law.
pub fn spaces_by_lines()
    ensures spaces { (row : List Column) (pins : Pins) (track : NetNo → ℕ) (trunks : List Trunk)
        → All IsColumn row → length row ≤ 32 → AreTrunks (placement_of row) pins track trunks
        → AreSpaces (placement_of row) pins (stretches_of trunks)
        (spaces_of (borders_of pins track (is_ahead []) (lines_of_row row) (λ net. false))) }
    // parted at any line, their sum is that up to the line and that from it on
    ensures parted { (front : List Border) (line : Border) (rest : List Border)
        → sum (spaces_of (front ++ line ∷ rest)) ≡ sum (spaces_of (front ++ line ∷ [])) + sum (spaces_from line rest) }
{}

/// The spaces of a row are known along its path of states. Of what is before a state three things count for those
/// behind it: the state, the tracks of nets that have places still, and what counts of the last gate line. It does
/// nothing: its contract is the law.
pub fn spaces_by_states()
    ensures spaces { (pins : Pins) (k : Kinds) (steps : List Step) (track : NetNo → ℕ) (trunks : List Trunk)
        → GatesAreNets k → Leads k (start_of k) steps → length (map (column_of k) steps) ≤ 32
        → AreTrunks (placement_of (map (column_of k) steps)) pins track trunks
        → AreSpaces (placement_of (map (column_of k) steps)) pins (stretches_of trunks)
        (spaces_of (borders_behind pins k (start_of k) track steps)) }
    ensures again { (pins : Pins) (k : Kinds) (s : State) (steps : List Step) (track other : NetNo → ℕ)
        → GatesAreNets k → Leads k s steps
        → ((net : NetNo) → is_still_ahead k s net ≡ true → track net ≡ other net)
        → borders_behind pins k s track steps ≡ borders_behind pins k s other steps }
{}
