// Reading one structure of a GDSII file into the rectangles and labels of a drawing.
#![tactic(auto)]

pub mod draws;
pub mod element;
pub mod field;
pub mod flat;
pub mod grammar;
pub mod index;
pub mod label;
pub mod lattice;
pub mod laws;
pub mod pass;
pub mod read;
pub mod real;
pub mod reference;
pub mod round_trip;
pub mod structure;

pub use gds_area::GdsFault;
pub use laws::{
    accepted_libraries, decoded_cells, drawn_elements, visited_elements, written_grammar,
};
pub use read::read_cell;
pub use round_trip::{read_library, read_written};
