// What `bench` results in: the generated cells, made and counted, and the laws on them. The cells are chains of gates,
// drawn by a linear congruential generator.
#![tactic(auto)]

mod cell_laws;
mod cells;
mod count;
mod draws;
mod end;
mod net;
mod pins;
mod read;
mod size;
mod size_laws;
mod stage;
pub mod tally;
mod text;
mod transistor;

pub use cell_laws::{cells_are_read, one_first_least, paired_are_searched};
pub use cells::bench;
pub use end::bench_end;
pub use net::{Net, NetList};
pub use size_laws::one_length;
pub use stage::{Stage, StageList};
pub use tally::Tally;
pub use text::{MOST_CELL_BYTES, bench_text, cell_name};
pub use transistor::{Transistor, TransistorList};
