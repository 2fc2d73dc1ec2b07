// The call does nothing: its contract is the law.
ghost use Rattle.std.specs.Prelude.{ℕ, ◌-◌, ◌≤◌, Option as Maybe};
ghost use Rattle.cell_num.specs.declared.finger.Fingers.{Fingers};
ghost use Rattle.cell_num.specs.Fingers.{AreFingers, columns_of};
ghost use Rattle.trail_check.specs.Accepted.{IsLow};
ghost use Rattle.fewer_fingers.specs.declared.fewer.LeftOut.{LeftOut};
ghost use Rattle.fewer_fingers.specs.Fewer.{columns_lost, staying};

/// The fingers that stay are fingers, and need no more columns. A bound that no arrangement of these is below is one of
/// all fingers, less one for each column lost. For take the columns of an arrangement without what is left out, and
/// without those that are empty then: each of these adds at most one gap. It does nothing: its contract is the law.
pub fn fewer_gaps()
    ensures fingers { (f : Fingers) → AreFingers f → (out : Maybe LeftOut) → AreFingers (staying out f) }
    ensures columns { (f : Fingers) → AreFingers f → (out : Maybe LeftOut) → columns_of (staying out f) ≤ columns_of f }
    ensures law { (f : Fingers) → AreFingers f → (out : Maybe LeftOut) → (gaps : ℕ)
        → IsLow (staying out f) gaps → IsLow f (gaps - columns_lost f (staying out f)) }
{}
