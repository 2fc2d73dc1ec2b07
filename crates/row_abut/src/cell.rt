ghost use Rattle.std.specs.Prelude.{◌≡◌};
ghost use Rattle.cell_draw.specs.Named.{name_of};

use cell_draw::{Drawing, Edges};
use cell_num::{List, Name, Names, NetNo, NoMemory, Pins};
use thiserror::Error;

/// A cell of a row: its drawing, the names of its nets, and the channel edges of its rows in grid units.
#[derive(Clone, Debug, PartialEq, Drop)]
pub struct RowCell {
    pub name: Name,
    pub nets: Names,
    pub pins: Pins,
    pub drawing: Drawing,
    pub edges: Edges,
}

/// The cells of a row, from the left.
pub type RowCellList = List<RowCell>;

impl RowCell {
    /// The name of a net, empty where it has none.
    pub fn net_name(&self, net: NetNo) -> &[u8]
        ensures { result.now ≡ name_of self.now.nets net }
    {
        match self.nets.as_slice().get(net.0 as usize) {
            Some(name) => name.as_slice(),
            None => &[],
        }
    }
}

/// Why cells can't be side by side.
#[derive(Clone, Copy, Debug, PartialEq, Eq, Error)]
pub enum RowFault {
    /// A cell's height, in grid units, is not that of the first cell.
    #[error("Heights")]
    Heights { first: u32, other: u32 },
    /// Two neighbours, by their numbers: the N edge of one is less than [`CHANNEL_ROOM`](crate::CHANNEL_ROOM) below
    /// the P edge of the other.
    #[error("Channel")]
    Channel { left: u32, right: u32 },
    #[error("NoMemory")]
    NoMemory,
}

impl From<NoMemory> for RowFault {
    ghost use Rattle.row_abut.specs.declared.cell.RowFault.TheVariants.{NoMemory as OutOfMemory};

    ghost from_gives = { λ _ e. e ≡ OutOfMemory };

    fn from(_: NoMemory) -> RowFault {
        RowFault::NoMemory
    }
}
