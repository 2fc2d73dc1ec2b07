use cell_num::{List, NetNo};

/// The trunk of one net lies above that of another.
#[derive(Clone, Copy, Debug, PartialEq, Eq)]
pub struct NetAbove {
    pub upper: NetNo,
    pub lower: NetNo,
}

/// Nets above others, as node lines ask for them.
pub type AboveList = List<NetAbove>;
