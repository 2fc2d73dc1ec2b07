// The drawing of a routed row as rectangles on the layers.
#![tactic(auto)]

mod bars;
pub mod cell;
mod channel_shapes;
mod contacts;
pub mod drawing;
pub mod frame;
mod gates;
mod groups;
mod labels;
pub mod laws;
pub mod layout;
pub mod measure;
mod plan;
mod row_shapes;
mod shape;
mod wiring;

pub use cell::{MOST_SHAPES, draw, draw_base};
pub use drawing::{DrawFault, Drawing};
pub use frame::{Edges, MOST_HEIGHT, MOST_TRACKS, MOST_X, MOST_Y, channel_edges};
pub use laws::{extraction_law, limit_numbers, measure_numbers};
pub use layout::{Bar, Contact, Frame, Gate, Layout, Strip, Tag};
pub use measure::{
    EDGE_SPACE, END_CAP, GATE_LENGTH, HALF_CUT, HALF_GATE, HALF_METAL, HALF_PAD, LABEL_ON_FINGER,
    LABEL_ON_GATE, LABEL_ON_GND, LABEL_ON_VDD, LANDING, LEAST_CHANNEL, LEAST_ROW, RAIL, RAIL_GAP,
    ROW_EDGE, SELECT_PAST_ROW, SELECT_PAST_SIDE, TRACK_PITCH, WELL_PAST_ROW, WELL_PAST_SIDE,
};
pub use shape::square;
pub use wiring::draw_wiring;
