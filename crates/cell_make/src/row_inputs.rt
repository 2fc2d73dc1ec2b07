ghost use Rattle.std.specs.Prelude.{◌≡◌};
ghost use Rattle.cell_inputs.specs.Inputs.{unit_nm};
ghost use Rattle.cell_make.specs.RowInputs.{AreRowInputs};

use cell_inputs::LeastRow;
use cell_num::{Bytes, Name, Names};
use std::marker::Model;
use tech_file::Tech;

/// What a row of cells is made of. All names are ones that [`is_cell`](cell_num::is_cell) takes; the row's is none of
/// the cells'.
#[derive(Drop)]
pub struct RowInputs {
    pub tech: Tech,
    /// The bytes of the SPICE file, at most a gibibyte.
    pub spice: Bytes,
    /// The row's name.
    pub top: Name,
    /// The cells' names from the left, 1 to [`MOST_CELLS`](row_abut::MOST_CELLS), in lower case.
    pub names: Names,
    /// Which of its least rows each cell is drawn with.
    pub choice: LeastRow,
}

impl Model for RowInputs {
    ghost use Rattle.cell_make.specs.RowInputs.{RowInputs as InputsOf, AreRowInputs, row_inputs};

    ghost Value = { InputsOf };

    ghost view = { λ i. row_inputs i.tech i.spice i.top i.names i.choice };

    ghost invariant = { λ i. AreRowInputs (row_inputs i.tech i.spice i.top i.names i.choice) };
}

impl RowInputs {
    /// Shows a caller's proof what holds of all of them; it does nothing.
    pub fn show_limits(&self)
        ensures { AreRowInputs self.now }
    {
        let _ = &self.top;
    }

    /// Nanometres in a grid unit.
    pub fn unit_nm(&self) -> u32
        ensures { result ≡ unit_nm self.now.tech }
    {
        self.tech.unit_nm()
    }
}
