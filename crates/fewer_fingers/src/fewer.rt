ghost use Rattle.std.specs.Prelude.{◌≡◌, ◌≤◌, IfOk};
ghost use Rattle.cell_num.specs.Fingers.{AreFingers};
ghost use Rattle.fewer_fingers.specs.Fewer.{columns_lost, is_out, staying, staying_in, without, without_in};

use cell_num::{Finger, Fingers, List, NetNo, NoMemory, Row, columns_of};
use std::alloc::{AllocError, Global};

/// Fingers that are left out: those of the row on these gates.
#[derive(Debug, PartialEq, Drop)]
pub struct LeftOut {
    pub row: Row,
    pub gates: List<NetNo>,
}

fn staying_in(alloc: Global, out: &LeftOut, fingers: &[Finger]) -> Result<Vec<Finger>, AllocError>
    ensures { IfOk result (λ all. all.items ≡ staying_in out.now fingers.now) }
{
    fingers
        .iter()
        .copied()
        .filter(|finger| !out.has(finger.gate.0))
        .collect(alloc)
}

fn without_in(
    alloc: Global,
    row: Row,
    out: &LeftOut,
    fingers: &Fingers,
) -> Result<Fingers, NoMemory>
    ensures { IfOk result (λ others. others ≡ without_in row out.now fingers.now) }
{
    match row {
        Row::P => Ok(Fingers {
            nets: fingers.nets,
            p: List::from_vec(staying_in(alloc, out, fingers.p.as_slice())?),
            n: fingers.n.clone()?,
        }),
        Row::N => Ok(Fingers {
            nets: fingers.nets,
            p: fingers.p.clone()?,
            n: List::from_vec(staying_in(alloc, out, fingers.n.as_slice())?),
        }),
    }
}

impl LeftOut {
    // Whether fingers on the gate are left out.
    fn has(&self, gate: u32) -> bool
        ensures { result ≡ is_out self.now gate }
    {
        self.gates.as_slice().iter().any(|other| other.0 == gate)
    }

    // The fingers that stay.
    fn without(&self, alloc: Global, fingers: &Fingers) -> Result<Fingers, NoMemory>
        ensures { IfOk result (λ others. others ≡ without self.now fingers.now) }
    {
        without_in(alloc, self.row, self, fingers)
    }
}

fn copy(fingers: &Fingers) -> Result<Fingers, NoMemory>
    ensures { IfOk result (λ it. it ≡ fingers.now) }
{
    Ok(Fingers {
        nets: fingers.nets,
        p: fingers.p.clone()?,
        n: fingers.n.clone()?,
    })
}

/// The fingers that stay.
pub fn staying(alloc: Global, out: &Option<LeftOut>, fingers: &Fingers) -> Result<Fingers, NoMemory>
    ensures staying { IfOk result (λ others. others ≡ staying out.now fingers.now) }
    ensures fingers { AreFingers fingers.now → IfOk result AreFingers }
{
    match out {
        Some(out) => out.without(alloc, fingers),
        None => copy(fingers),
    }
}

/// How many columns less the others need than the fingers.
pub fn columns_lost(fingers: &Fingers, others: &Fingers) -> u32
    requires fingers { AreFingers fingers.now }
    requires others { AreFingers others.now }
    ensures lost { result ≡ columns_lost fingers.now others.now }
    ensures few { result ≤ 32 }
{
    (columns_of(fingers) as u32).saturating_sub(columns_of(others) as u32)
}
