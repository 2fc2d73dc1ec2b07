// Whether the gates that a certificate fills may be filled, and the others with half columns may stay open.
ghost use Rattle.std.specs.Prelude.{◌≡◌, ◌↔◌, IsTrue};
ghost use Rattle.std.specs.List.{list_all};
ghost use Rattle.cell_num.specs.declared.net.NetNo.{NetNo as NetNoOf};
ghost use Rattle.open_gates.specs.Open.{is_uneven};
ghost use Rattle.pool_certificate.specs.Accepted.{IsFill, open_of};

use cell_num::{Fingers, NetNo};
use open_gates::{OpenGates, is_uneven};
use pool_log::PoolCertificate;

fn are_uneven(fingers: &Fingers, gates: &[NetNo]) -> bool
    ensures { result ≡ list_all (λ (gate : NetNoOf). is_uneven fingers.now gate.0) gates.now }
{
    gates.iter().all(|gate| is_uneven(fingers, gate.0))
}

/// Whether each gate that is filled has half columns, and all that stay open have more fingers in one row.
#[tactic(auto, using(crate::proofs::Filled::fill_decides))]
pub(crate) fn is_fill(fingers: &Fingers, pools: &PoolCertificate, opened: &OpenGates) -> bool
    requires { opened.now ≡ open_of fingers.now pools.now }
    ensures { IsTrue result ↔ IsFill fingers.now pools.now }
{
    are_uneven(fingers, pools.fill.as_slice()) && opened.have_more(fingers)
}
