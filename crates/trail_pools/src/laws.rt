// The calls do nothing: their contracts are the laws.
ghost use Rattle.std.specs.Prelude.{◌+◌, ◌*◌, ◌<◌, ◌≤◌, ◌↔◌, ℕ, Bool, List, All};
ghost use Rattle.cell_num.specs.declared.finger.Fingers.{Fingers};
ghost use Rattle.cell_num.specs.declared.finger.Row.{Row};
ghost use Rattle.cell_num.specs.declared.net.NetNo.{NetNo};
ghost use Rattle.cell_num.specs.Fingers.{AreFingers};
ghost use Rattle.row_model.specs.declared.column.Column.{Column};
ghost use Rattle.row_model.specs.Arrangement.{IsArrangement};
ghost use Rattle.row_model.specs.Gaps.{gaps_of};
ghost use Rattle.trail_state.specs.Levels.{IsGate, IsOrder};
ghost use Rattle.trail_halves.specs.declared.choice.OpenChoice.{OpenChoice};
ghost use Rattle.trail_halves.specs.Open.{ArePools, IsOpenChoice, open_ends};
ghost use Rattle.trail_pools.specs.Choices.{open_choices_of};
ghost use Rattle.trail_pools.specs.declared.level.PoolLevel.{PoolLevel};
ghost use Rattle.trail_pools.specs.Levels.{AreLevels, AreListed, IsListed, PoolEnds, ends_along};
ghost use Rattle.trail_pools.specs.Meeting.{AreOpenLevels};
ghost use Rattle.trail_pools.specs.State.{start};

/// The ends counted along an order are no more than those of the same choices as a whole. It does nothing: its contract
/// is the law.
pub fn along_order()
    ensures { (f : Fingers) (r : Row) (counted pool : ℕ → Bool) (order : List NetNo) (levels : List PoolLevel)
        (choices : List OpenChoice) → AreLevels f r counted pool order levels → AreListed levels choices
        → ends_along (256 * f.nets) r pool levels start choices ≤ open_ends f r pool choices }
{}

/// The places that gates can meet by their fingers, with all open choices of each gate, are the levels of an order. It
/// does nothing: its contract is the law.
pub fn open_levels()
    ensures { (f : Fingers) → AreFingers f → (r : Row) (counted pool : ℕ → Bool) → ArePools f r counted pool
        → (order : List NetNo) (levels : List PoolLevel) → All (λ (g : NetNo). IsGate f g.0) order
        → AreOpenLevels f r counted pool order levels → AreLevels f r counted pool order levels }
{}

/// Whatever gates are counted in a row, no arrangement has fewer ends of trails than every list of choices along an
/// order has, and a row has two for each stretch without a gap. It does nothing: its contract is the law.
pub fn pool_ends()
    ensures { (f : Fingers) → AreFingers f → (r : Row) (counted pool : ℕ → Bool) → ArePools f r counted pool
        → (order : List NetNo) → IsOrder f order → (levels : List PoolLevel) (ends : ℕ)
        → AreLevels f r counted pool order levels → PoolEnds (256 * f.nets) r pool levels start ends
        → (row : List Column) → IsArrangement row f → ends ≤ 2 * (gaps_of row + 1) }
{}

/// The listed open choices of a gate are all of its open choices and no others, up to the order of edges and half
/// edges. It does nothing: its contract is the law.
pub fn all_open_choices()
    ensures { (f : Fingers) → AreFingers f → (r : Row) (counted : ℕ → Bool) (gate : ℕ) → gate < f.nets
        → (choice : OpenChoice) → IsOpenChoice f r counted gate choice
        ↔ IsListed (open_choices_of f r counted gate) choice }
{}
