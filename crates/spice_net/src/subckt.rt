use cell_num::{List, Name, Names, NetNo, Pins, Row};

/// The most pins of a subcircuit, rails that are added to them counted.
pub const MOST_PINS: usize = 64;

/// The most transistors of a subcircuit, each copy of one counted.
pub const MOST_DEVICES: usize = 128;

/// A transistor, its nets by their numbers.
#[derive(Clone, Copy, Debug, PartialEq, Eq)]
pub struct Device {
    pub row: Row,
    pub drain: NetNo,
    pub gate: NetNo,
    pub source: NetNo,
    /// In grid units.
    pub width: u32,
    /// Into how many fingers it is cut at least.
    pub fingers: u32,
}

/// The transistors of a subcircuit.
pub type DeviceList = List<Device>;

/// The direction of a pin's signal, as a LEF pin has it.
#[derive(Clone, Copy, Debug, PartialEq, Eq)]
pub enum Direction {
    Input,
    Output,
    Inout,
}

/// The direction of each pin.
pub type DirectionList = List<Direction>;

/// A subcircuit: its nets by their numbers, the pins first, its transistors in the order of the file,
/// with the copies of one after each other, and the direction of each pin.
#[derive(Debug, Drop)]
pub struct Subckt {
    pub name: Name,
    pub pins: Pins,
    pub nets: Names,
    pub devices: DeviceList,
    pub directions: DirectionList,
}
