ghost use Rattle.std.specs.Prelude.{◌≡◌, ◌↔◌, IsTrue};
ghost use Rattle.std.specs.List.{list_all};
ghost use Rattle.trail_check.specs.Gates.{AreGates};
ghost use Rattle.trail_check.specs.Leveled.{open_of};
ghost use Rattle.trail_check.specs.Tests.{are_once, are_ordered, gates_test, has_gate, is_gate, is_order};

use cell_num::{Finger, Fingers, NetNo};
use open_gates::OpenGates;
use trail_log::TrailCertificate;
use trail_state::count_on;

fn has_gate(gates: &[NetNo], gate: u32) -> bool
    ensures { result ≡ has_gate gates.now gate }
{
    gates.iter().any(|other| other.0 == gate)
}

fn are_once(gates: &[NetNo]) -> bool
    ensures { result ≡ are_once gates.now }
{
    match gates {
        [gate, later @ ..] => !has_gate(later, gate.0) && are_once(later),
        [] => true,
    }
}

fn is_gate(fingers: &Fingers, gate: &NetNo) -> bool
    ensures { result ≡ is_gate fingers.now gate.now }
{
    count_on(fingers.p.as_slice(), gate.0) > 0 || count_on(fingers.n.as_slice(), gate.0) > 0
}

fn are_gates_of(fingers: &Fingers, order: &[NetNo]) -> bool
    ensures { result ≡ list_all (is_gate fingers.now) order.now }
{
    order.iter().all(|gate| is_gate(fingers, gate))
}

fn are_ordered(order: &[NetNo], fingers: &[Finger]) -> bool
    ensures { result ≡ are_ordered order.now fingers.now }
{
    fingers.iter().all(|finger| has_gate(order, finger.gate.0))
}

fn is_order(fingers: &Fingers, order: &[NetNo]) -> bool
    ensures { result ≡ is_order fingers.now order.now }
{
    are_once(order)
        && are_gates_of(fingers, order)
        && are_ordered(order, fingers.p.as_slice())
        && are_ordered(order, fingers.n.as_slice())
}

fn passes(fingers: &Fingers, trails: &TrailCertificate, opened: &OpenGates) -> bool
    requires { opened.now ≡ open_of fingers.now trails.now }
    ensures { result ≡ gates_test fingers.now trails.now }
{
    is_order(fingers, trails.order.as_slice()) && opened.have_more(fingers)
}

// Whether the order is each gate of a finger once, and the gates with half columns that are not filled all have more
// fingers in one row: these are left open.
#[tactic(auto, using(crate::proofs::Decided::gates_decide))]
pub(crate) fn are_gates(fingers: &Fingers, trails: &TrailCertificate, opened: &OpenGates) -> bool
    requires { opened.now ≡ open_of fingers.now trails.now }
    ensures { IsTrue result ↔ AreGates fingers.now trails.now }
{
    passes(fingers, trails, opened)
}
