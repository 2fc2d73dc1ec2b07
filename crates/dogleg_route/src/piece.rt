use channel_route::{Trunk, TrunkList, WireAbove, WireCycleList};
use std::alloc::AllocError;

/// The part of a net's trunk between neighbouring lines at which it may be cut, on a track of its own. It
/// has a trunk's fields.
pub type Piece = Trunk;

/// A list of pieces, in a routing in order of net and first line.
pub type PieceList = TrunkList;

/// A piece, named by its net and its first line, that is above the next one of a cycle at a line.
pub type PieceAbove = WireAbove;

/// A cycle of pieces: each is above the next one, the last above the first.
pub type PieceCycle = WireCycleList;

/// The pieces of a channel, in order of net and first line.
#[derive(Debug, PartialEq, Drop)]
pub struct PieceRouting {
    pub tracks: u32,
    pub pieces: PieceList,
}

/// Why a channel has no routing of pieces.
#[derive(Debug, Drop)]
pub enum PieceStop {
    /// Each piece is above the next one, the last above the first.
    Cycle(PieceCycle),
    NoMemory,
}

impl From<AllocError> for PieceStop {
    ghost use Rattle.std.specs.Prelude.{◌≡◌};
    ghost use Rattle.dogleg_route.specs.declared.piece.PieceStop.TheVariants.{NoMemory as OutOfMemory};

    ghost from_gives = { λ _ e. e ≡ OutOfMemory };

    fn from(_: AllocError) -> PieceStop {
        PieceStop::NoMemory
    }
}
