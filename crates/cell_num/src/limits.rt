/// The most nets of a cell.
pub const MOST_NETS: u32 = 256;

/// The most columns of a row.
pub const MOST_COLUMNS: usize = 32;

/// The most fingers of a cell, both rows together.
pub const MOST_FINGERS: usize = 64;

/// The most bytes of a text or a file, and the most lemmas of a log, that a call takes: 1 GiB.
pub const MOST_BYTES: usize = 1_073_741_824;
