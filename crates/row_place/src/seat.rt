ghost use Rattle.std.specs.Prelude.{◌≡◌, ◌≤◌};
ghost use Rattle.row_model.specs.Arrangement.{place};
ghost use Rattle.row_place.specs.Steps.{end_at, gate_of};

use crate::{GatePlace, MOST_UNITS, Seat};
use cell_num::{NetNo, Row};

impl Seat {
    /// The net that the finger in a row has at a node line.
    pub fn end_at(&self, row: Row, line: u32) -> Option<NetNo>
        requires { self.now.unit ≤ MOST_UNITS }
        ensures { result ≡ end_at line self.now.unit (place row self.now.column) }
    {
        let placed = self.column.place(row)?;
        if line == 2 * self.unit {
            Some(placed.left())
        } else if line == 2 * self.unit + 2 {
            Some(placed.right())
        } else {
            None
        }
    }

    /// The place of the gate.
    pub fn gate(&self) -> Option<GatePlace>
        requires { self.now.unit ≤ MOST_UNITS }
        ensures { result ≡ gate_of self.now }
    {
        let net = self.column.gate()?;
        Some(GatePlace {
            line: 2 * self.unit + 1,
            net,
        })
    }
}
