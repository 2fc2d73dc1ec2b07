// The measures of a drawing, in grid units of half a lambda. `specs/Measures.antt` has each number, and why. Those
// between lines are in `row_compact`.

/// Half a contact or a via.
pub const HALF_CUT: u32 = 2;

/// Half a gate.
pub const HALF_GATE: u32 = 2;

/// The length of a gate, which is twice `HALF_GATE`.
pub const GATE_LENGTH: u32 = 4;

/// Half a pad, the square of active or poly around a contact.
pub const HALF_PAD: u32 = 5;

/// Half the width of a strap, a trunk or a piece of metal2, and how far each goes past the centre of its last contact
/// or via.
pub const HALF_METAL: u32 = 4;

/// Poly past the outer end of a finger.
pub const END_CAP: u32 = 4;

/// The well past the channel edge of the P row.
pub const WELL_PAST_ROW: u32 = 12;

/// The well past the sides of the cell.
pub const WELL_PAST_SIDE: u32 = 10;

/// A select past both ends of its row.
pub const SELECT_PAST_ROW: u32 = 4;

/// A select past the sides of the cell.
pub const SELECT_PAST_SIDE: u32 = 2;

/// The height of a rail.
pub const RAIL: u32 = 16;

/// Between a rail and its row.
pub const RAIL_GAP: u32 = 8;

/// From the end of the cell to its row: `RAIL` and `RAIL_GAP`.
pub const ROW_EDGE: u32 = 24;

/// The least height of a row: that of a pad.
pub const LEAST_ROW: u32 = 10;

/// From a row into the channel, to the centre of a landing via.
pub const LANDING: u32 = 6;

/// From a row to the nearest track.
pub const EDGE_SPACE: u32 = 20;

/// The least height of a channel: `EDGE_SPACE` on both sides of one track.
pub const LEAST_CHANNEL: u32 = 40;

/// Between two tracks.
pub const TRACK_PITCH: u32 = 16;

/// A label's point on a finger, from its channel edge.
pub const LABEL_ON_FINGER: u32 = 4;

/// A label's point on a gate, into the channel.
pub const LABEL_ON_GATE: u32 = 2;

/// A label's point on the gnd rail, from the rail's lower end: half of `RAIL`.
pub const LABEL_ON_GND: u32 = 8;

/// A label's point on the vdd rail, from the outer end of the P row: `RAIL_GAP`, and half of `RAIL`.
pub const LABEL_ON_VDD: u32 = 16;
