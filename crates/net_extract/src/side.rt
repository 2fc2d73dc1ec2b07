// The cells of a gate and along its four sides.
ghost use Rattle.std.specs.Prelude.{◌≡◌};
ghost use Rattle.net_extract.specs.Areas.{cells_in};
ghost use Rattle.net_extract.specs.Devices.{left_of, right_of, below, above};
ghost use Rattle.net_extract.specs.Devices.{source_side, drain_side, low_end, high_end};
ghost use Rattle.net_extract.specs.Pieces.{rect_of};

use crate::area::Area;
use crate::piece::Piece;

/// How the current flows through a device.
#[derive(Clone, Copy, Debug)]
pub enum Current {
    Rightward,
    Upward,
}

pub(crate) fn whole(gate: &Piece) -> Area
    ensures { cells_in result ≡ rect_of gate.now }
{
    Area {
        x1: i64::from(gate.left),
        y1: i64::from(gate.low),
        x2: i64::from(gate.right),
        y2: i64::from(gate.top),
    }
}

fn left(gate: &Piece) -> Area
    ensures { cells_in result ≡ left_of (rect_of gate.now) }
{
    Area {
        x1: i64::from(gate.left) - 1,
        y1: i64::from(gate.low),
        x2: i64::from(gate.left),
        y2: i64::from(gate.top),
    }
}

fn right(gate: &Piece) -> Area
    ensures { cells_in result ≡ right_of (rect_of gate.now) }
{
    Area {
        x1: i64::from(gate.right),
        y1: i64::from(gate.low),
        x2: i64::from(gate.right) + 1,
        y2: i64::from(gate.top),
    }
}

fn under(gate: &Piece) -> Area
    ensures { cells_in result ≡ below (rect_of gate.now) }
{
    Area {
        x1: i64::from(gate.left),
        y1: i64::from(gate.low) - 1,
        x2: i64::from(gate.right),
        y2: i64::from(gate.low),
    }
}

fn over(gate: &Piece) -> Area
    ensures { cells_in result ≡ above (rect_of gate.now) }
{
    Area {
        x1: i64::from(gate.left),
        y1: i64::from(gate.top),
        x2: i64::from(gate.right),
        y2: i64::from(gate.top) + 1,
    }
}

pub(crate) fn source(gate: &Piece, current: Current) -> Area
    ensures { cells_in result ≡ source_side current (rect_of gate.now) }
{
    match current {
        Current::Rightward => left(gate),
        Current::Upward => under(gate),
    }
}

pub(crate) fn drain(gate: &Piece, current: Current) -> Area
    ensures { cells_in result ≡ drain_side current (rect_of gate.now) }
{
    match current {
        Current::Rightward => right(gate),
        Current::Upward => over(gate),
    }
}

pub(crate) fn low_side(gate: &Piece, current: Current) -> Area
    ensures { cells_in result ≡ low_end current (rect_of gate.now) }
{
    match current {
        Current::Rightward => under(gate),
        Current::Upward => left(gate),
    }
}

pub(crate) fn high_side(gate: &Piece, current: Current) -> Area
    ensures { cells_in result ≡ high_end current (rect_of gate.now) }
{
    match current {
        Current::Rightward => over(gate),
        Current::Upward => right(gate),
    }
}
