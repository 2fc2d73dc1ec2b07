// Cells side by side in a row.
#![tactic(auto)]

mod abutting;
pub mod cell;
mod fault;
mod labels;
pub mod laws;
pub mod measure;
mod structs;

pub use abutting::abut;
pub use cell::{RowCell, RowCellList, RowFault};
pub use fault::first_height;
pub use laws::measure_numbers;
pub use measure::{CHANNEL_ROOM, LEAST_INNER, MOST_CELLS, MOST_REACH};
