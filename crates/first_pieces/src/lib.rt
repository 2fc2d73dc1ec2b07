// The first legal routing by pieces of a placement on some number of tracks.
#![tactic(auto)]

pub mod first;
pub mod laws;

pub use first::first_pieces;
pub use laws::one_first_pieces;
