// The distances that lines keep, in grid units of half a lambda. `specs/Measures.antt` has each number, and why.

/// From the left side of the cell to the first line, and from the last line to the right side.
pub const SIDE_SPACE: u32 = 8;

/// Between neighbouring lines.
pub const LINE_SPACE: u32 = 8;

/// Between a node line with a contact and the gate line of a column.
pub const CONTACT_SPACE: u32 = 11;

/// Between two stretches of a track.
pub const STRETCH_SPACE: u32 = 14;
