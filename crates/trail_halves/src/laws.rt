// The calls do nothing: their contracts are the laws.
ghost use Rattle.std.specs.Prelude.{◌≡◌, ◌+◌, ◌*◌, ◌≤◌, ◌++◌, ℕ, Bool, false, [], List, IsPermutation};
ghost use Rattle.cell_num.specs.declared.finger.Fingers.{Fingers};
ghost use Rattle.cell_num.specs.declared.finger.Row.{Row};
ghost use Rattle.cell_num.specs.declared.net.NetNo.{NetNo};
ghost use Rattle.cell_num.specs.Fingers.{AreFingers};
ghost use Rattle.row_model.specs.declared.column.Column.{Column};
ghost use Rattle.row_model.specs.Arrangement.{IsArrangement};
ghost use Rattle.row_model.specs.Gaps.{gaps_of};
ghost use Rattle.trail_state.specs.declared.edge.Edge.{Edge};
ghost use Rattle.trail_state.specs.declared.edge.FingerEnds.{FingerEnds};
ghost use Rattle.trail_state.specs.Levels.{IsOrder};
ghost use Rattle.trail_check.specs.Graph.{ends_of};
ghost use Rattle.trail_halves.specs.Halves.{AreBelow, AreFilled, HavePools, half_ends};
ghost use Rattle.trail_halves.specs.Open.{ArePools, HasOpenChoices};

/// However the half edges of a row are filled, the graph has as many ends of trails as were counted with open half
/// edges, or more. The graph is edges and filled half edges, in any order, and its nodes are below n. It does nothing:
/// its contract is the law.
pub fn filled_ends()
    ensures { (n : ℕ) (r : Row) (pool : ℕ → Bool) (edges filled graph : List Edge) (halves : List FingerEnds)
        → HavePools pool halves → AreFilled r halves filled → IsPermutation (edges ++ filled) graph
        → AreBelow n graph → half_ends n r pool edges halves ≤ ends_of n graph }
{}

/// Without pools and half edges the ends are those of the edges. It does nothing: its contract is the law.
pub fn no_halves()
    ensures { (n : ℕ) (r : Row) (edges : List Edge) → AreBelow n edges
        → half_ends n r (λ net. false) edges [] ≡ ends_of n edges }
{}

/// Whatever gates are counted in a row, each arrangement has open choices, one of each gate, with no more ends than two
/// for each of its stretches without a gap. So no arrangement has fewer gaps than the fewest ends of open choices say.
/// It does nothing: its contract is the law.
pub fn open_choices()
    ensures { (f : Fingers) → AreFingers f → (r : Row) (counted pool : ℕ → Bool) → ArePools f r counted pool
        → (order : List NetNo) → IsOrder f order → (row : List Column) → IsArrangement row f
        → HasOpenChoices f r counted pool order (2 * (gaps_of row + 1)) }
{}
