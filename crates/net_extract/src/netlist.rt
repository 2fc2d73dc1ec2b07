use cell_num::{List, Names, Row};

/// A device as it is drawn: its gate's net, the nets along its two diffusion sides with `lo <= hi`, the
/// length of these sides and their distance, in grid units.
#[derive(Clone, Copy, Debug, PartialEq, Eq)]
pub struct Drawn {
    pub row: Row,
    pub gate: u32,
    pub lo: u32,
    pub hi: u32,
    pub width: u32,
    pub length: u32,
}

/// The devices of a drawing.
pub type DrawnList = List<Drawn>;

/// The names of nets by number, and the devices; nets are numbered and devices ordered by their first
/// cells, the lowest row first and in it from the left.
#[derive(Debug, PartialEq, Eq, Drop)]
pub struct Netlist {
    pub names: Names,
    pub devices: DrawnList,
}

/// For each device the net of its body by number; None where its well, or the substrate, has no tap.
pub type BodyList = List<Option<u32>>;

/// A netlist and the bodies of its devices.
#[derive(Debug, PartialEq, Eq, Drop)]
pub struct BodyNetlist {
    pub netlist: Netlist,
    pub bodies: BodyList,
}
