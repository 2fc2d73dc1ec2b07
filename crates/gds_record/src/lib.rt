// Records of the GDSII Stream format, release 6: what is at a place of a file, the published types
// of records and of their data, and the numbers of layers.
#![tactic(auto)]

pub mod laws;
pub mod layers;
pub mod record;
pub mod types;

pub use laws::{layer_numbers, spelled_records};
pub use record::{GdsRec, RecFault, next_record};
pub use types::{DataType, RecordType};
