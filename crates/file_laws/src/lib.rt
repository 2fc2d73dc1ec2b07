// No code: laws on the files of a made cell. How many bytes its library takes; that its abstract is read back as the
// macro that it spells, and agrees with the drawing.
#![tactic(auto)]

pub mod lef_laws;
mod size_laws;

pub use lef_laws::{abstract_lengths, agreeing_abstracts, readable_drawings, reads_back};
pub use size_laws::{drawn_lengths, written_lengths};
