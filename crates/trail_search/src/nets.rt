ghost use Rattle.std.specs.Prelude.{◌≡◌, IfOk};
ghost use Rattle.cell_num.specs.Fingers.{AreFingers};
ghost use Rattle.trail_state.specs.Nodes.{is_end_in, is_net_in};
ghost use Rattle.trail_state.specs.Pairings.{gate_of, nets_in};

use cell_num::{Finger, Fingers, List, NoMemory};
use open_gates::gates::has_net;
use std::alloc::{AllocError, Global};
use trail_state::gate::{Gate, all_nets};
use trail_state::nodes::on_gate;

fn is_end(fingers: &[Finger], net: u32) -> bool
    ensures { result ≡ is_end_in fingers.now net }
{
    fingers.iter().any(|finger| has_net(net, finger))
}

fn is_net_in(fingers: &[Finger], net: u32) -> bool
    ensures { result ≡ is_net_in fingers.now net }
{
    if fingers.is_empty() {
        net == 0
    } else {
        is_end(fingers, net)
    }
}

fn nets_in(alloc: Global, fingers: &[Finger], nets: u32) -> Result<Vec<u32>, AllocError>
    ensures { IfOk result (λ all. all.items ≡ nets_in fingers.now nets) }
{
    (0..nets)
        .filter(|net| is_net_in(fingers, *net))
        .collect(alloc)
}

/// The fingers of the gate by their nets, and the nets of the two rows: its choices depend on these alone.
#[tactic(auto, using(crate::proofs::Choices::gate_rules))]
pub(crate) fn gate_of(alloc: Global, fingers: &Fingers, gate: u32) -> Result<Gate, NoMemory>
    requires { AreFingers fingers.now }
    ensures { IfOk result (λ it. it ≡ gate_of fingers.now gate) }
{
    let (p, n) = (fingers.p.as_slice(), fingers.n.as_slice());
    let on_p = on_gate(alloc, gate, p)?;
    let on_n = on_gate(alloc, gate, n)?;
    Ok(Gate {
        p: List::from_vec(all_nets(alloc, on_p.as_slice())?),
        n: List::from_vec(all_nets(alloc, on_n.as_slice())?),
        p_fill: List::from_vec(nets_in(alloc, p, fingers.nets)?),
        n_fill: List::from_vec(nets_in(alloc, n, fingers.nets)?),
    })
}
