// Rows of columns, given by the nets at their fingers' ends.
ghost use Rattle.std.specs.Prelude.{◌≡◌, ◌≤◌, All, IfOk, length};
ghost use Rattle.row_model.specs.Arrangement.{IsPlaced, IsColumn};
ghost use Rattle.row_place.specs.Places.{IsPlacement};

use cell_num::{Finger, MOST_COLUMNS, NetNo, NoMemory, Pins, Row};
use row_model::{Arrangement, Column, Placed};
use row_place::{Placement, place};
use std::alloc::Global;

// A finger with the nets at its ends from left to right; it is flipped where they fall.
fn standing(row: Row, gate: u32, left: u32, right: u32) -> Placed
    ensures gate { result.finger.gate.0 ≡ gate }
    ensures placed { IsPlaced result }
{
    let flipped = right < left;
    let (lo, hi) = if flipped {
        (right, left)
    } else {
        (left, right)
    };
    Placed {
        finger: Finger {
            row,
            gate: NetNo(gate),
            lo: NetNo(lo),
            hi: NetNo(hi),
            width: 20,
        },
        flipped,
    }
}

pub fn both(gate: u32, p: (u32, u32), n: (u32, u32)) -> Column
    ensures { IsColumn result }
{
    Column {
        p: Some(standing(Row::P, gate, p.0, p.1)),
        n: Some(standing(Row::N, gate, n.0, n.1)),
    }
}

pub fn placed(alloc: Global, columns: &[Column]) -> Result<Placement, NoMemory>
    requires columns { All IsColumn columns.now }
    requires few { length columns.now ≤ MOST_COLUMNS }
    ensures { IfOk result IsPlacement }
{
    let mut row = Arrangement::new(alloc);
    row.extend(columns)?;
    place(alloc, &row)
}

// The rails come after the other pins.
pub fn rails_at(vdd: u32) -> Pins
    requires { vdd ≤ 100 }
{
    Pins {
        pins: vdd + 2,
        vdd: NetNo(vdd),
        gnd: NetNo(vdd + 1),
    }
}
