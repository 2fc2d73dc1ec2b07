ghost use Rattle.std.specs.Prelude.{IfOk};
ghost use Rattle.cell_num.specs.Fingers.{AreFingers};

use cell_num::{Finger, FingerList, Fingers, NetNo, Row, are_fingers};
use std::alloc::Global;
use std::test::Fail;

/// A P and an N finger of one gate: the gate, the lower end of both, the higher end of each.
pub type Pair = (u32, u32, u32, u32);

fn finger(row: Row, gate: u32, lo: u32, hi: u32) -> Finger {
    Finger {
        row,
        gate: NetNo(gate),
        lo: NetNo(lo),
        hi: NetNo(hi),
        width: 20,
    }
}

fn listed(alloc: Global, nets: u32, pairs: &[Pair]) -> Result<Fingers, Fail> {
    let mut rows = Fingers {
        nets,
        p: FingerList::new(alloc),
        n: FingerList::new(alloc),
    };
    for (gate, lo, p_hi, n_hi) in pairs {
        rows.p.push(finger(Row::P, *gate, *lo, *p_hi))?;
        rows.n.push(finger(Row::N, *gate, *lo, *n_hi))?;
    }
    Ok(rows)
}

pub fn fingers(alloc: Global, nets: u32, pairs: &[Pair]) -> Result<Fingers, Fail>
    ensures { IfOk result AreFingers }
{
    let rows = listed(alloc, nets, pairs)?;
    if are_fingers(&rows) {
        Ok(rows)
    } else {
        Err(Fail::from("no fingers"))
    }
}

/// One inverter, and three of their own: the gates, the outputs, and the rails.
pub const INVERTER: [Pair; 1] = [(0, 1, 2, 3)];

pub const INVERTERS: [Pair; 3] = [(0, 3, 6, 7), (1, 4, 6, 7), (2, 5, 6, 7)];
