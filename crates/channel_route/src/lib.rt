// The router of the channel between the two rows.
#![tactic(auto)]

pub mod channel;
mod constraint;
mod cycle;
pub mod laws;
pub mod ring;
pub mod routing;
mod sweep;
mod wire;

pub use channel::{route, trunks_of};
pub use constraint::{Constraint, constraints};
pub use cycle::{Step, find_cycle};
pub use laws::{no_cycle, one_routing, one_told, some_routing};
pub use ring::Ring;
pub use routing::{
    Above, CycleList, RouteStop, Routing, Trunk, TrunkList, WireAbove, WireCycleList,
};
pub use sweep::{Filled, fill};
pub use wire::{MOST_TRUNKS, MOST_WIRES, PlacedWire, Wire, wires};
