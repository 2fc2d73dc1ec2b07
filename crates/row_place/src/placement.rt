use cell_num::{List, MOST_COLUMNS, NetNo, Row};
use row_model::{Arrangement, Column};

/// More units than a row has: before each of its columns there is at most one gap.
pub const MOST_UNITS: usize = 2 * MOST_COLUMNS;

/// The most node places of a row: one in each of the two rows at each node line.
pub const MOST_NODES: usize = 2 * MOST_UNITS;

/// What a unit of a row is. Unit `u` has the node lines `2u` and `2u + 2` and the gate line `2u + 1`.
#[derive(Clone, Copy, Debug, PartialEq, Eq)]
pub enum UnitKind {
    Column,
    Gap,
}

/// A column and the unit that it is.
#[derive(Clone, Copy, Debug)]
pub struct Seat {
    pub column: Column,
    pub unit: u32,
}

/// The end of a finger at a node line, or of two fingers that share it.
#[derive(Clone, Copy, Debug, PartialEq, Eq)]
pub struct NodePlace {
    pub row: Row,
    pub line: u32,
    pub net: NetNo,
}

/// The gate of a column at its gate line.
#[derive(Clone, Copy, Debug, PartialEq, Eq)]
pub struct GatePlace {
    pub line: u32,
    pub net: NetNo,
}

/// The units of a row from left to right.
pub type UnitList = List<UnitKind>;

/// The seats of a row from left to right.
pub type SeatList = List<Seat>;

/// The places of nodes by ascending line, at one line the N row's before the P row's.
pub type NodeList = List<NodePlace>;

/// The places of gates by ascending line.
pub type GateList = List<GatePlace>;

/// A row on its lines. Places stand in order of line, the N place of a line before its P place.
#[derive(Debug, PartialEq, Drop)]
pub struct Placement {
    pub row: Arrangement,
    pub units: UnitList,
    pub nodes: NodeList,
    pub gates: GateList,
}
