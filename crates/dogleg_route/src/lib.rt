// Routing in pieces of nets: trunks that are cut at the inner node lines of their nets.
#![tactic(auto)]

pub mod cut;
pub mod drawn;
pub mod laws;
pub mod piece;
pub mod router;

pub use cut::Stretch;
pub use drawn::{draw_pieces, piece_distances};
pub use laws::{no_piece_cycle, one_piece_routing, one_piece_told, pieces_apart, pieces_are_wired};
pub use piece::{Piece, PieceAbove, PieceCycle, PieceList, PieceRouting, PieceStop};
pub use router::{piece_wires, route_pieces};
