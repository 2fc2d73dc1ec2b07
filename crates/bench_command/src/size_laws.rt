ghost use Rattle.std.specs.Prelude.{◌≡◌, ℕ, List, length};
ghost use Rattle.row_model.specs.declared.column.Column.{Column};
ghost use Rattle.channel_route.specs.declared.routing.Routing.{Routing};
ghost use Rattle.cell_inputs.specs.Inputs.{Inputs};
ghost use Rattle.cell_make.specs.Making.{drawing_in, library_of};

/// The library of a made cell has as many bytes wherever its lines are. It does nothing: its contract is the law.
pub fn one_length()
    ensures { (inputs : Inputs) (row : List Column) (routing : Routing) (xs ys : List ℕ)
        → length (library_of inputs (drawing_in inputs row routing xs))
        ≡ length (library_of inputs (drawing_in inputs row routing ys)) }
{}
