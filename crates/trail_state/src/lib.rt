// Trails through the columns of a row: the edges that fingers of a gate can be, the choices of each gate of an order,
// the nodes that later gates can meet, what a choice leaves open, and the ends that no row escapes.
#![tactic(auto)]

mod alone;
mod beside;
mod columns;
pub mod edge;
mod edges;
mod front;
pub mod gate;
pub mod laws;
pub mod left;
pub mod level;
mod listing;
pub mod nodes;
mod pairing;
pub mod settle;
pub mod state;

pub use edge::{Choice, Edge, Node};
pub use edges::{between, insert};
pub use level::{Level, LevelStop, levels, levels_within};
pub use nodes::{count_on, open_nodes};
pub use pairing::{choices, choices_within, has_long_front};
pub use settle::{Settled, after};
pub use state::{Place, TrailState};
