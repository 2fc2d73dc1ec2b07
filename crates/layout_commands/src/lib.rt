// What `extract`, `agree` and `row` result in.
#![tactic(auto)]

mod agreement;
mod compared;
mod extraction;
mod gds_cell;
mod row_reading;
mod rowing;

pub use agreement::{AgreeAnswer, agree};
pub use compared::{Compared, read_compared};
pub use extraction::{ExtractAnswer, extract};
pub use gds_cell::{GdsCell, read_gds_cell};
pub use row_reading::read_row;
pub use rowing::row;
