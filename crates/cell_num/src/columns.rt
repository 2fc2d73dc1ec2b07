ghost use Rattle.std.specs.Prelude.{◌≡◌, ◌≤◌, max};
ghost use Rattle.cell_num.specs.Fingers.{on_gate, columns_of};

use crate::{Finger, Fingers};

fn gate_count(fingers: &[Finger], gate: u32) -> usize
    ensures { result ≡ on_gate gate fingers.now }
{
    fingers.iter().filter(|f| f.gate.0 == gate).count()
}

/// The larger of the two counts of fingers on a gate, of the P row and of the N row.
pub fn larger_count(fingers: &Fingers, gate: u32) -> usize
    ensures { result ≡ max (on_gate gate fingers.now.p) (on_gate gate fingers.now.n) }
{
    gate_count(fingers.p.as_slice(), gate).max(gate_count(fingers.n.as_slice(), gate))
}

/// The fewest columns that hold the fingers: the sum over the gates of the larger of the two counts.
#[tactic(auto, using(crate::proofs::Sums::sum_below_more, crate::proofs::Sums::sum_below_le))]
pub fn columns_of(fingers: &Fingers) -> usize
    requires few { columns_of fingers.now ≤ 1000000 }
    ensures { result ≡ columns_of fingers.now }
{
    let mut total = 0;
    for gate in 0..fingers.nets {
        total += larger_count(fingers, gate);
    }
    total
}
