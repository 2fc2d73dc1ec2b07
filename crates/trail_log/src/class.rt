use cell_num::{List, NetNo};

/// Nets, by their numbers.
pub type NetList = List<NetNo>;

/// A net of the P row above a net of the N row, the place of an end of a column.
#[derive(Clone, Copy, Debug)]
pub struct NetPair {
    pub p: NetNo,
    pub n: NetNo,
}

/// Pairs of a net of each row.
pub type NetPairs = List<NetPair>;

/// Pairs of nets that the columns so far chain, and whether a trail through them has an end already.
#[derive(Debug, Drop)]
pub struct Class {
    pub nodes: NetPairs,
    pub flagged: bool,
}

/// Classes of pairs.
pub type ClassList = List<Class>;
