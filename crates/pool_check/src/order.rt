ghost use Rattle.std.specs.Prelude.{◌≡◌, ◌↔◌, IsTrue};
ghost use Rattle.std.specs.List.{list_all};
ghost use Rattle.trail_check.specs.Tests.{are_once, are_ordered, has_gate, is_gate, is_order};
ghost use Rattle.trail_state.specs.Levels.{IsOrder};

use cell_num::{Finger, Fingers, NetNo};
use trail_state::count_on;

fn has_gate(gates: &[NetNo], gate: u32) -> bool
    ensures { result ≡ has_gate gates.now gate }
{
    gates.iter().any(|other| other.0 == gate)
}

fn are_once(gates: &[NetNo]) -> bool
    ensures { result ≡ are_once gates.now }
{
    match gates {
        [gate, later @ ..] => !has_gate(later, gate.0) && are_once(later),
        [] => true,
    }
}

fn is_gate(fingers: &Fingers, gate: &NetNo) -> bool
    ensures { result ≡ is_gate fingers.now gate.now }
{
    count_on(fingers.p.as_slice(), gate.0) > 0 || count_on(fingers.n.as_slice(), gate.0) > 0
}

fn are_gates(fingers: &Fingers, order: &[NetNo]) -> bool
    ensures { result ≡ list_all (is_gate fingers.now) order.now }
{
    order.iter().all(|gate| is_gate(fingers, gate))
}

fn are_ordered(order: &[NetNo], fingers: &[Finger]) -> bool
    ensures { result ≡ are_ordered order.now fingers.now }
{
    fingers.iter().all(|finger| has_gate(order, finger.gate.0))
}

fn passes(fingers: &Fingers, order: &[NetNo]) -> bool
    ensures { result ≡ is_order fingers.now order.now }
{
    are_once(order)
        && are_gates(fingers, order)
        && are_ordered(order, fingers.p.as_slice())
        && are_ordered(order, fingers.n.as_slice())
}

/// Whether the order has each gate of a finger once, and no other gate.
#[tactic(auto, using(crate::proofs::Ordered::order_decides))]
pub fn is_order(fingers: &Fingers, order: &[NetNo]) -> bool
    ensures { IsTrue result ↔ IsOrder fingers.now order.now }
{
    passes(fingers, order)
}
