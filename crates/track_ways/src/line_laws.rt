ghost use Rattle.std.specs.Prelude.{ℕ, ◌||◌, ◌≡◌, ◌<◌, ◌≤◌, Bool, true};
ghost use Rattle.std.specs.Prelude.{List, [], map, length, All, IsPermutation, IsSorted};
ghost use Rattle.cell_num.specs.declared.net.NetNo.{NetNo};
ghost use Rattle.cell_num.specs.declared.net.Pins.{Pins};
ghost use Rattle.row_model.specs.declared.column.Column.{Column};
ghost use Rattle.row_model.specs.Arrangement.{IsColumn};
ghost use Rattle.row_place.specs.declared.placement.Placement.{Placement};
ghost use Rattle.row_place.specs.Places.{placement_of};
ghost use Rattle.channel_route.specs.declared.routing.Trunk.{Trunk};
ghost use Rattle.channel_route.specs.declared.routing.Routing.{Routing};
ghost use Rattle.channel_route.specs.declared.wire.Wire.{Wire};
ghost use Rattle.channel_route.specs.Routing.{IsLegal};
ghost use Rattle.channel_route.specs.Wires.{AreWires, trunk_cmp};
ghost use Rattle.channel_route.specs.Wiring.{wiring_of};
ghost use Rattle.track_ways.specs.declared.line.Line.{Line};
ghost use Rattle.track_ways.specs.Lines.{has_place, is_ahead, is_held, LineFits, Fits, Agrees, Sweeps, chosen};
ghost use Rattle.track_ways.specs.Channel.{AreLinesOf, AreTrunks, AreLegalWithin, trunk_on};
ghost use Rattle.track_ways.specs.Rows.{lines_of_row};

/// Tracks line by line are one track for each net. It does nothing: its contract is the law.
pub fn tracks_by_lines()
    ensures one { (pins : Pins) (limit : ℕ) (before : NetNo → Bool) (track : NetNo → ℕ) (lines : List Line)
        → Sweeps pins limit before track lines
        → (of : NetNo → ℕ) × Agrees pins before (is_ahead lines) track of × Fits pins limit of before lines }
    ensures each { (pins : Pins) (limit : ℕ) (before : NetNo → Bool) (track : NetNo → ℕ) (lines : List Line)
        (of : NetNo → ℕ) → Agrees pins before (is_ahead lines) track of → Fits pins limit of before lines
        → Sweeps pins limit before track lines }
    // through a line they are known from those before it and those of the nets with a place at it
    ensures chosen { (pins : Pins) (limit : ℕ) (before : NetNo → Bool) (line : Line) (behind : NetNo → Bool)
        (track next : NetNo → ℕ) → Agrees pins before (λ net. has_place line net || behind net) track next
        → LineFits pins limit next before line behind
        → LineFits pins limit (chosen line next track) before line behind
        × ((net : NetNo) → is_held pins before line behind net ≡ true → chosen line next track net ≡ next net) }
{}

/// The lines of a row, column by column, are those of its placement. It does nothing: its contract is the law.
pub fn rows_by_lines()
    ensures { (row : List Column) → All IsColumn row → length row ≤ 32
        → AreLinesOf (placement_of row) (lines_of_row row) }
{}

/// The wires of a placement, each on the track of its net, are its trunks. It does nothing: its contract is the law.
pub fn trunks_by_wires()
    ensures { (placement : Placement) (pins : Pins) (wires : List Wire) (track : NetNo → ℕ) (trunks : List Trunk)
        → AreWires placement pins wires → IsPermutation (map (trunk_on track) wires) trunks → IsSorted trunk_cmp trunks
        → AreTrunks placement pins track trunks }
{}

/// Trunks are legal exactly where their tracks fit every line; on the fewest tracks no track is empty. It does
/// nothing: its contract is the law.
pub fn legal_by_lines()
    ensures fits { (placement : Placement) (pins : Pins) (lines : List Line)
        (track : NetNo → ℕ) (trunks : List Trunk) (limit : ℕ)
        → AreLinesOf placement lines → AreTrunks placement pins track trunks
        → AreLegalWithin placement pins limit trunks → Fits pins limit track (is_ahead []) lines }
    ensures legal { (placement : Placement) (pins : Pins) (lines : List Line)
        (track : NetNo → ℕ) (trunks : List Trunk) (limit : ℕ)
        → AreLinesOf placement lines → AreTrunks placement pins track trunks
        → Fits pins limit track (is_ahead []) lines → AreLegalWithin placement pins limit trunks }
    ensures full { (placement : Placement) (pins : Pins) (lines : List Line)
        (track : NetNo → ℕ) (trunks : List Trunk) (limit : ℕ)
        → AreLinesOf placement lines → AreTrunks placement pins track trunks
        → Fits pins limit track (is_ahead []) lines
        → ((fewer : ℕ) (other : NetNo → ℕ) → fewer < limit → Fits pins fewer other (is_ahead []) lines → ⊥)
        → IsLegal placement pins (wiring_of limit trunks) }
    ensures least { (placement : Placement) (pins : Pins) (lines : List Line) (limit : ℕ) → AreLinesOf placement lines
        → ((fewer : ℕ) (other : NetNo → ℕ) → fewer < limit → Fits pins fewer other (is_ahead []) lines → ⊥)
        → (routing : Routing) → IsLegal placement pins routing → limit ≤ routing.tracks }
{}
