// The words of a call of the program.
#![tactic(auto)]

mod cell;
mod cell_form;
mod check_form;
mod count;
mod evidence;
mod form;
mod row;
mod style;

pub use cell::CellAsked;
pub use count::CellCount;
pub use evidence::Evidence;
pub use form::{Form, form_of, put_usage};
pub use row::{MOST_ROW_CELLS, RowAsked};
