// The measures of a row, in grid units. `specs/Measures.antt` has each number, and why.

/// The most cells of a row.
pub const MOST_CELLS: usize = 16;

/// How far from 0 widths, channel edges and coordinates of cells may lie.
pub const MOST_REACH: u32 = 2_000_000;

/// From the N edge of a cell to the P edge of its neighbour.
pub const CHANNEL_ROOM: u32 = 24;

/// The least width of a cell between two others.
pub const LEAST_INNER: u32 = 19;
