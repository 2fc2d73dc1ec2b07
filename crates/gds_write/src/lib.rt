// Writing cells as a library of the GDSII Stream format, release 6.
#![tactic(auto)]

mod element;
pub mod laws;
pub mod library;
mod put;
mod write;

pub use laws::{written_libraries, written_records};
pub use library::{Ref, RefList, Struct, StructList};
pub use write::{write_cell, write_library};
