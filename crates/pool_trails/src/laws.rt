// The call does nothing: its contract is the law.
ghost use Rattle.cell_num.specs.declared.finger.Fingers.{Fingers};
ghost use Rattle.cell_num.specs.declared.finger.Row.{Row};
ghost use Rattle.cell_num.specs.Fingers.{AreFingers};
ghost use Rattle.pool_trails.specs.declared.opening.Opening.TheVariants.{Without};
ghost use Rattle.pool_trails.specs.Ended.{HasManyOpen};
ghost use Rattle.pool_trails.specs.Opening.{staying_by};

/// Where the fingers of a row are left out on each gate that has too many ways, no gate of the fingers that stay has,
/// in any order of the gates. It does nothing: its contract is the law.
pub fn ways_without()
    ensures { (row : Row) (f : Fingers) → AreFingers f
        → HasManyOpen (Without row) (staying_by (Without row) f) → ⊥ }
{}
