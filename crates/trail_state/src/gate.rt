ghost use Rattle.std.specs.Prelude.{◌≡◌, ◌<◌, All, IfOk, map};
ghost use Rattle.cell_num.specs.Fingers.{AreFingers};
ghost use Rattle.trail_state.specs.Pairings.{HasSmallEnds, gate_of, nets_at};

use crate::edge::FingerEnds;
use crate::nodes::{nets_in, on_gate};
use cell_num::{Finger, Fingers, List, NoMemory};
use std::alloc::{AllocError, Global};

/// The fingers of a gate by the nets at their ends, and the nets that fill empty places of the two rows.
#[derive(Debug, PartialEq, Drop)]
pub struct Gate {
    pub p: List<FingerEnds>,
    pub n: List<FingerEnds>,
    pub p_fill: List<u32>,
    pub n_fill: List<u32>,
}

fn nets_at(finger: &Finger) -> FingerEnds
    requires { HasSmallEnds finger.now }
    ensures { result ≡ nets_at finger.now }
{
    FingerEnds {
        lo: finger.lo.0 as u8,
        hi: finger.hi.0 as u8,
    }
}

/// The nets at the ends of each finger.
pub fn all_nets(alloc: Global, fingers: &[Finger]) -> Result<Vec<FingerEnds>, AllocError>
    requires { All HasSmallEnds fingers.now }
    ensures { IfOk result (λ all. all.items ≡ map nets_at fingers.now) }
{
    let mut all = Vec::new(alloc);
    for finger in fingers {
        all.push(nets_at(finger))?;
    }
    Ok(all)
}

/// The fingers of the gate, and the nets of the two rows.
#[tactic(auto, using(crate::proofs::Small::nets_small, crate::proofs::Small::p_small, crate::proofs::Small::n_small))]
pub(crate) fn gate_of(alloc: Global, fingers: &Fingers, gate: u32) -> Result<Gate, NoMemory>
    requires { AreFingers fingers.now }
    ensures is { IfOk result (λ it. it ≡ gate_of fingers.now gate) }
    ensures p_small { IfOk result (λ it. All (λ net. net < 256) it.p_fill) }
    ensures n_small { IfOk result (λ it. All (λ net. net < 256) it.n_fill) }
{
    let (p, n) = (fingers.p.as_slice(), fingers.n.as_slice());
    let on_p = on_gate(alloc, gate, p)?;
    let on_n = on_gate(alloc, gate, n)?;
    Ok(Gate {
        p: List::from_vec(all_nets(alloc, on_p.as_slice())?),
        n: List::from_vec(all_nets(alloc, on_n.as_slice())?),
        p_fill: List::from_vec(nets_in(alloc, p, fingers.nets)?),
        n_fill: List::from_vec(nets_in(alloc, n, fingers.nets)?),
    })
}
