// The first row on the fewest tracks where nets may turn, with the first of its routings by pieces on them.
#![tactic(auto)]

mod lowest;

pub use lowest::{LowestPieces, lowest_pieces};
