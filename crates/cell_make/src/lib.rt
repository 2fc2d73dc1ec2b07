// What making a cell results in: its drawing, a cycle of its least row, a height that is not enough, or the log of an
// unfinished search; the lowest row of a cell; and making a row of cells: one library, or why there is none.
#![tactic(auto)]

mod channel;
pub mod draw_outcome;
pub mod drawn;
mod drawn_cell;
mod low_drawn;
mod low_pieces;
pub mod low_planned;
mod low_ring;
mod low_wired;
pub mod outcome;
pub mod planned;
mod row_cell;
mod row_cells;
pub mod row_inputs;
pub mod row_outcome;
mod row_stop;

pub use cell_inputs::Inputs;
pub use draw_outcome::DrawOutcome;
pub use drawn::Drawn;
pub use low_planned::LowPlanned;
pub use outcome::Outcome;
pub use planned::Planned;
pub use row_inputs::RowInputs;
pub use row_outcome::{InputFault, RowOutcome, Undrawn};
