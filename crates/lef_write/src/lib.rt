// Writing a cell as a macro of a LEF library.
#![tactic(auto)]

pub mod laws;
mod number;
mod obstructions;
mod pins;
pub mod port;
mod ports;
mod shapes;
mod write;

pub use laws::{drawn_ports, wired_ports};
pub use port::{Port, PortList};
pub use write::{lef_ports, lef_text};
