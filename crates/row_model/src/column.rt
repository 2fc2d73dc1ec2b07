ghost use Rattle.std.specs.Prelude.{◌≡◌};
ghost use Rattle.row_model.specs.Arrangement.{gate_in, place};
ghost use Rattle.row_model.specs.Gaps.{left_net, right_net};

use cell_num::{Finger, List, NetNo, Row};

/// A finger as it stands in a column: flipped it has `hi` on the left.
#[derive(Clone, Copy, Debug, PartialEq, Eq)]
pub struct Placed {
    pub finger: Finger,
    pub flipped: bool,
}

impl Placed {
    /// The net at its left end.
    pub fn left(&self) -> NetNo
        ensures { result ≡ left_net self.now }
    {
        if self.flipped {
            self.finger.hi
        } else {
            self.finger.lo
        }
    }

    /// The net at its right end.
    pub fn right(&self) -> NetNo
        ensures { result ≡ right_net self.now }
    {
        if self.flipped {
            self.finger.lo
        } else {
            self.finger.hi
        }
    }
}

/// The two places of a column. A half column has one of them empty.
#[derive(Clone, Copy, Debug, PartialEq, Eq)]
pub struct Column {
    pub p: Option<Placed>,
    pub n: Option<Placed>,
}

impl Column {
    /// What stands in its place of the row.
    pub fn place(&self, row: Row) -> Option<Placed>
        ensures { result ≡ place row self.now }
    {
        match row {
            Row::P => self.p,
            Row::N => self.n,
        }
    }

    /// The net of its gate: that of the P finger, and without one that of the N finger.
    pub fn gate(&self) -> Option<NetNo>
        ensures { result ≡ gate_in self.now.p self.now.n }
    {
        match (&self.p, &self.n) {
            (Some(x), _) => Some(x.finger.gate),
            (None, Some(y)) => Some(y.finger.gate),
            (None, None) => None,
        }
    }
}

/// The columns of a row, from left to right.
pub type Arrangement = List<Column>;
