use crate::{FingerList, NetNo};

/// The row of a transistor: all P transistors stand over all N transistors.
#[derive(Clone, Copy, Debug, PartialEq, Eq, PartialOrd, Ord)]
pub enum Row {
    P,
    N,
}

/// One finger of a transistor. Unflipped it has `lo` on the left, flipped it has `hi` there.
#[derive(Clone, Copy, Debug, PartialEq, Eq, PartialOrd, Ord)]
pub struct Finger {
    pub row: Row,
    pub gate: NetNo,
    pub lo: NetNo,
    pub hi: NetNo,
    /// In grid units, of half a lambda each.
    pub width: u32,
}

/// The fingers of both rows, over the nets numbered below `nets`.
#[derive(Debug, PartialEq, Drop)]
pub struct Fingers {
    pub nets: u32,
    pub p: FingerList,
    pub n: FingerList,
}
