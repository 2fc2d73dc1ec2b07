ghost use Rattle.std.specs.Prelude.{ℕ, ◌≡◌, ◌<◌, ◌≤◌, ◌^◌, IsTrue, List};
ghost use Rattle.cell_num.specs.declared.finger.Row.{Row};
ghost use Rattle.cell_num.specs.declared.finger.Fingers.{Fingers};
ghost use Rattle.cell_num.specs.Names.{is_cell};
ghost use Rattle.row_model.specs.declared.column.Column.{Column};
ghost use Rattle.row_state.specs.declared.kind.Kinds.{Kinds};
ghost use Rattle.row_state.specs.declared.state.State.{State};
ghost use Rattle.row_state.specs.Start.{AreKinds, AreSomeKinds};
ghost use Rattle.bound_log.specs.declared.log.Log.{Log};
ghost use Rattle.row_search.specs.Ended.{IsSpent};
ghost use Rattle.row_search.specs.First.{IsFirstLeast};
ghost use Rattle.bench_command.specs.Text.{cell_name};
ghost use Rattle.bench_command.specs.Paired.{ArePaired, IsBound, nodes_enough};
ghost use Rattle.bench_command.specs.Read.{IsCellName, IsRead};

/// Each generated cell is read from the text of all of them, and it folds into few columns. It does nothing: its
/// contract is the law.
pub fn cells_are_read()
    ensures read { (number cell : ℕ) → number ≤ 2 ^ 64 → cell < number → IsRead number cell }
    ensures name { (cell : ℕ) → cell < 2 ^ 64 → IsCellName (cell_name cell) }
    ensures cell { (cell : ℕ) → cell < 2 ^ 64 → IsTrue (is_cell (cell_name cell)) }
{}

/// Where each gate has a finger in both rows or none, and there are ten columns at most, no search by a true bound
/// spends a budget of that many nodes. It does nothing: its contract is the law.
pub fn paired_are_searched()
    ensures { (value : Row → State → Kinds → ℕ) (f : Fingers) (k : Kinds) (budget proved : ℕ) (log : Log)
        → IsBound value k → ArePaired f → AreKinds f k → AreSomeKinds k → nodes_enough ≤ budget
        → IsSpent value k f budget log proved → ⊥ }
{}

/// Fingers have one first least row at most. It does nothing: its contract is the law.
pub fn one_first_least()
    ensures { (f : Fingers) (a b : List Column) → IsFirstLeast f a → IsFirstLeast f b → a ≡ b }
{}
