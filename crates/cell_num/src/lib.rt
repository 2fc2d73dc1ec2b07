// The words of the whole workspace: nets, transistor fingers, names, lists and lengths.
#![tactic(auto)]

mod columns;
mod finger;
mod fingers;
mod halt;
pub mod laws;
mod length;
mod limits;
mod lines;
mod list;
mod name;
mod net;
mod room;

pub use columns::columns_of;
pub use finger::{Finger, Fingers, Row};
pub use fingers::are_fingers;
pub use halt::Halt;
pub use laws::limit_numbers;
pub use length::{Fixed, MOST_UNITS, snap};
pub use limits::{MOST_BYTES, MOST_COLUMNS, MOST_FINGERS, MOST_NETS};
pub use lines::{put_count, put_number, put_pair, put_text};
pub use list::{List, NoMemory};
pub use name::{MOST_CELL_BYTES, MOST_NAME_BYTES, copy, is_cell, is_name, lower};
pub use net::{NetNo, Pins};
pub use room::Room;

/// Fingers of one row.
pub type FingerList = List<Finger>;

/// Bytes of any kind.
pub type Bytes = List<u8>;

/// A name, as its bytes.
pub type Name = List<u8>;

/// Names, as those of the nets by their numbers.
pub type Names = List<Name>;
