use cell_num::{List, NetNo, NoMemory};
use std::alloc::AllocError;

/// The trunk of a net: from its first to its last line, on a track. Tracks are numbered from 0 at the
/// N row upward.
#[derive(Clone, Copy, Debug, PartialEq, Eq, PartialOrd, Ord)]
pub struct Trunk {
    pub net: NetNo,
    pub left: u32,
    pub right: u32,
    pub track: u32,
}

/// A list of trunks, in a routing in order of net.
pub type TrunkList = List<Trunk>;

/// The trunks of a channel, in order of net.
#[derive(Debug, PartialEq, Drop)]
pub struct Routing {
    pub tracks: u32,
    pub trunks: TrunkList,
}

/// A net that stands above the next one of a cycle at a line.
#[derive(Clone, Copy, Debug, PartialEq, Eq)]
pub struct Above {
    pub net: NetNo,
    pub line: u32,
}

/// A cycle of nets: each stands above the next one, the last above the first.
pub type CycleList = List<Above>;

/// A wire, named by its net and its first line, that stands above the next one of a cycle at a line.
#[derive(Clone, Copy, Debug, PartialEq, Eq)]
pub struct WireAbove {
    pub net: NetNo,
    pub left: u32,
    pub line: u32,
}

/// A cycle of wires: each stands above the next one, the last above the first.
pub type WireCycleList = List<WireAbove>;

/// Why a channel has no routing.
#[derive(Debug, Drop)]
pub enum RouteStop {
    /// Each net stands above the next one, the last above the first, which has the least number.
    Cycle(CycleList),
    NoMemory,
}

impl From<AllocError> for RouteStop {
    ghost use Rattle.std.specs.Prelude.{◌≡◌};
    ghost use Rattle.channel_route.specs.declared.routing.RouteStop.TheVariants.{NoMemory as OutOfMemory};

    ghost from_gives = { λ _ e. e ≡ OutOfMemory };

    fn from(_: AllocError) -> RouteStop {
        RouteStop::NoMemory
    }
}
