// Whether each pin of a placement has a place, which routing in pieces asks for.

ghost use Rattle.std.specs.Prelude.{◌≡◌, ◌<◌, ◌==◌, ◌||◌, true, length};
ghost use Rattle.std.specs.List.{list_any};
ghost use Rattle.row_place.specs.Trunks.{lines_of as lines_of_net, HasPins};

use cell_num::{NetNo, Pins};
use row_place::Placement;

fn has_node(placement: &Placement, net: NetNo) -> bool
    ensures { result ≡ list_any (λ node. node.net.0 == net.0) placement.now.nodes }
{
    placement
        .nodes
        .as_slice()
        .iter()
        .any(|node| node.net.0 == net.0)
}

fn has_gate(placement: &Placement, net: NetNo) -> bool
    ensures { result ≡ list_any (λ gate. gate.net.0 == net.0) placement.now.gates }
{
    placement
        .gates
        .as_slice()
        .iter()
        .any(|gate| gate.net.0 == net.0)
}

fn is_named(placement: &Placement, net: NetNo) -> bool
    ensures { result ≡ (list_any (λ node. node.net.0 == net.0) placement.now.nodes
        || list_any (λ gate. gate.net.0 == net.0) placement.now.gates) }
{
    has_node(placement, net) || has_gate(placement, net)
}

fn has_place(placement: &Placement, net: NetNo) -> bool
    ensures { result ≡ true → 0 < length (lines_of_net placement.now net) }
{
    is_named(placement, net)
}

pub fn have_places(placement: &Placement, pins: &Pins) -> bool
    ensures { result ≡ true → HasPins placement.now pins.now }
{
    for number in 0..pins.pins {
        let net = NetNo(number);
        if !pins.is_rail(net) && !has_place(placement, net) {
            return false;
        }
    }
    true
}
