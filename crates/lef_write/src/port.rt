use cell_num::{List, NetNo};

/// A shape of a drawing, by its place there, at which wires may meet a pin.
#[derive(Clone, Copy, Debug, PartialEq, Eq)]
pub struct Port {
    pub pin: NetNo,
    pub shape: u32,
}

pub type PortList = List<Port>;
