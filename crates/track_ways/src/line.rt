use cell_num::NetNo;

/// The nets of the places at one line of a channel: in the P row and in the N row of a node line, of the gate of a gate
/// line.
#[derive(Clone, Copy, Debug, PartialEq, Eq)]
pub struct Line {
    pub p: Option<NetNo>,
    pub n: Option<NetNo>,
    pub gate: Option<NetNo>,
}
