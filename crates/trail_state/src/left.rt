ghost use Rattle.std.specs.Prelude.{◌≡◌, IfOk, position};
ghost use Rattle.trail_state.specs.Fronts.{same_nets, without};

use crate::edge::FingerEnds;
use std::alloc::{AllocError, Global};

fn find(nets: FingerEnds, left: &[FingerEnds]) -> Option<usize>
    ensures { result ≡ position (same_nets nets) left.now }
{
    left.iter().position(|other| nets == *other)
}

/// All but the first with these nets.
#[tactic(auto, using(crate::proofs::Parts::one_less, crate::proofs::Parts::none_less))]
pub fn without(
    alloc: Global,
    nets: FingerEnds,
    left: &[FingerEnds],
) -> Result<Vec<FingerEnds>, AllocError>
    ensures { IfOk result (λ rest. rest.items ≡ without nets left.now) }
{
    let mut rest = left.to_vec(alloc)?;
    if let Some(at) = find(nets, left) {
        rest.remove(at);
    }
    Ok(rest)
}
