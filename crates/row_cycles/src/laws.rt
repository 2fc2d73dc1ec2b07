ghost use Rattle.std.specs.Prelude.{ℕ, ◌≡◌, ◌≤◌, List, All, length};
ghost use Rattle.cell_num.specs.declared.net.Pins.{Pins};
ghost use Rattle.cell_num.specs.declared.finger.Fingers.{Fingers};
ghost use Rattle.row_model.specs.declared.column.Column.{Column};
ghost use Rattle.row_model.specs.Arrangement.{IsArrangement, IsColumn};
ghost use Rattle.row_model.specs.Gaps.{gaps_of};
ghost use Rattle.row_place.specs.Places.{placement_of};
ghost use Rattle.row_place.specs.Trunks.{HasPins};
ghost use Rattle.channel_route.specs.declared.routing.Routing.{Routing};
ghost use Rattle.channel_route.specs.Cycle.{HasNoCycle};
ghost use Rattle.channel_route.specs.Routing.{HasTightRouting, IsLegal};
ghost use Rattle.row_state.specs.declared.kind.Kinds.{Kinds};
ghost use Rattle.row_state.specs.Start.{AreKinds, AreSomeKinds};
ghost use Rattle.track_ways.specs.Rows.{lines_of_row};
ghost use Rattle.row_cycles.specs.declared.lemma.CycleLemma.{CycleLemma};
ghost use Rattle.row_cycles.specs.Above.{HasCycle, above_of};
ghost use Rattle.row_cycles.specs.Certificate.{AreJustified, Certifies};
ghost use Rattle.row_cycles.specs.Unwired.{IsTrueOf};

use row_needs::GapBound;

/// Justified lemmas are true, so a certificate shows that no arrangement of the fingers with at most that many gaps has
/// a legal routing. It does nothing: its contract is the law.
pub fn cycles_by_lemmas<B: GapBound>(bound: &B)
    ensures lemmas { (pins : Pins) (k : Kinds) (lemmas : List CycleLemma) → AreSomeKinds k
        → AreJustified (B.value bound.now) pins k lemmas → All (IsTrueOf pins k) lemmas }
    // each arrangement with at most that many gaps has a cycle
    ensures cycle { (pins : Pins) (f : Fingers) (k : Kinds) (gaps : ℕ) (lemmas : List CycleLemma)
        → AreKinds f k → AreSomeKinds k → Certifies (B.value bound.now) pins k gaps lemmas
        → (row : List Column) → IsArrangement row f → gaps_of row ≤ gaps
        → HasCycle (above_of pins (lines_of_row row)) }
    ensures unwired { (pins : Pins) (f : Fingers) (k : Kinds) (gaps : ℕ) (lemmas : List CycleLemma)
        → AreKinds f k → AreSomeKinds k → Certifies (B.value bound.now) pins k gaps lemmas
        → (row : List Column) (r : Routing) → IsArrangement row f → gaps_of row ≤ gaps
        → IsLegal (placement_of row) pins r → ⊥ }
{
    bound.show_holds();
}

/// A row can be wired exactly where its lines put no nets above others in a cycle. It does nothing: its contract is the
/// law.
pub fn wired_rows()
    // a row with a cycle has no legal routing
    ensures unwired { (row : List Column) (pins : Pins) (r : Routing) → All IsColumn row → length row ≤ 32
        → HasCycle (above_of pins (lines_of_row row)) → IsLegal (placement_of row) pins r → ⊥ }
    // in one without, no nets stand above each other in a cycle
    ensures none { (row : List Column) (pins : Pins) → All IsColumn row → length row ≤ 32
        → (HasCycle (above_of pins (lines_of_row row)) → ⊥) → HasNoCycle (placement_of row) pins }
    // and where each pin has a place, some routing is legal and tight
    ensures legal { (row : List Column) (pins : Pins) → All IsColumn row → length row ≤ 32
        → HasPins (placement_of row) pins → (HasCycle (above_of pins (lines_of_row row)) → ⊥)
        → HasTightRouting (placement_of row) pins }
{}
