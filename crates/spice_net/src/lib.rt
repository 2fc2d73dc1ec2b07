// Subcircuits of SPICE files: transistors, with their nets numbered.
#![tactic(auto)]

mod chosen;
mod directions;
mod fault;
mod fields;
mod nets;
mod numbering;
mod numbers;
mod pairs;
mod parameters;
mod pins;
mod read;
mod sizes;
mod subckt;
mod transistor;

pub use fault::{SpiceFault, What};
pub use read::{read_cell, read_cell_in, split_file};
pub use subckt::{Device, DeviceList, Direction, DirectionList, Subckt};
