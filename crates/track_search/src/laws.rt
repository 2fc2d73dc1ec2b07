ghost use Rattle.std.specs.Prelude.{ℕ, List};
ghost use Rattle.cell_num.specs.declared.finger.Fingers.{Fingers};
ghost use Rattle.cell_num.specs.declared.net.Pins.{Pins};
ghost use Rattle.cell_num.specs.Fingers.{AreSound};
ghost use Rattle.cell_num.specs.Pins.{ArePins};
ghost use Rattle.row_state.specs.declared.kind.Kinds.{Kinds};
ghost use Rattle.row_state.specs.Start.{AreKinds};
ghost use Rattle.track_search.specs.Lowest.{HavePins};

/// In each row of a cell's sound fingers each pin other than the rails has a place, as `lowest_row` requires. It does
/// nothing: its contract is the law.
pub fn sound_pins()
    ensures { (names : List (List ℕ)) (pins : Pins) (f : Fingers) (k : Kinds) (gaps : ℕ)
        → AreSound names pins f → ArePins f.nets pins → AreKinds f k → HavePins pins k gaps }
{}
