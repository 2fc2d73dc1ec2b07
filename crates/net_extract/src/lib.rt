// Nets and devices of a drawing: what hangs together, by cells and by rectangles.
#![tactic(auto)]

mod area;
mod body;
mod bond;
mod class;
mod class_map;
mod conductor;
mod connections;
mod cut;
mod device;
mod drawing;
mod fault;
mod gate;
mod label_nets;
pub mod laws;
mod layers;
mod linked;
mod lookup;
mod naming;
mod net_piece;
pub mod netlist;
pub mod netmap;
mod piece;
mod shared;
mod side;
mod tie;

pub use drawing::{extract, extract_bodies};
pub use fault::ExtractFault;
pub use laws::{one_body_netlist, one_netlist, one_numbering, rectangle_nets};
pub use netlist::{BodyList, BodyNetlist, Drawn, DrawnList, Netlist};
pub use netmap::NetMap;
