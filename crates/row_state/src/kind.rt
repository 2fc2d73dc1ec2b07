ghost use Rattle.row_state.specs.Start.{AreSomeKinds};

use cell_num::{List, NetNo};
use std::marker::Model;

/// The fingers of a row that agree in gate, ends and width.
#[derive(Clone, Copy, Debug, PartialEq, Eq, PartialOrd, Ord)]
pub struct Kind {
    pub gate: NetNo,
    pub lo: NetNo,
    pub hi: NetNo,
    /// In grid units, of half a lambda each.
    pub width: u32,
    /// How many fingers are of this kind.
    pub count: u32,
}

/// Kinds of the fingers of one row.
pub type KindList = List<Kind>;

/// The kinds of the fingers of each row, by gate, lower end, higher end and width, no two of a row alike,
/// over the nets numbered below `nets`. There are at most 256 nets, and the fingers need at most 32 columns.
#[derive(Clone, Debug, PartialEq, Drop)]
pub struct Kinds {
    pub nets: u32,
    pub p: KindList,
    pub n: KindList,
}

impl Model for Kinds {
    ghost use Rattle.row_state.specs.Kinds.{Kinds as KindsOf};

    ghost Value = { KindsOf };

    ghost use Rattle.row_state.specs.Start.{AreSomeKinds};

    ghost view = { λ k. record { nets = k.nets; p = k.p; n = k.n } };

    ghost invariant = { λ k. AreSomeKinds (record { nets = k.nets; p = k.p; n = k.n }) };

    ghost inverse = { λ k. record { nets = k.nets; p = k.p; n = k.n } };
}

impl Kinds {
    /// Shows a caller's proof what holds of all kinds; it does nothing.
    pub fn show_limits(&self)
        ensures { AreSomeKinds self.now }
    {
        let _ = &self.nets;
    }
}
