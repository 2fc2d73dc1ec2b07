// A row of columns on its lines: its units, and the places of the nets.
#![tactic(auto)]

pub mod laws;
pub mod placement;
pub mod places;
mod seat;

pub use laws::{one_placement, rows_on_lines};
pub use placement::{
    GateList, GatePlace, MOST_NODES, MOST_UNITS, NodeList, NodePlace, Placement, Seat, SeatList,
    UnitKind, UnitList,
};
pub use places::{place, seats};
