// Taps of the well and of the substrate on the rails of a drawn cell.
#![tactic(auto)]

pub mod draw;
pub mod laws;
pub mod measure;

pub use draw::draw_taps;
pub use laws::{drawn_rails, framed_bases, measure_numbers, named_bodies, spread_lines};
pub use measure::{
    HALF_SELECT, MOST_TAPPED_HEIGHT, TAP_CLEAR, TAP_RISE, TAP_SHAPES, TAP_SPACE, WELL_PAST_END,
};
