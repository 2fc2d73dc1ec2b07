ghost use Rattle.std.specs.Prelude.{◌≡◌, None, IfErr, OnOk};
ghost use Rattle.std.specs.Option.{option_map};
ghost use Rattle.std.specs.List.{find};
ghost use Rattle.lef_read.specs.Agreement.{Agrees};
ghost use Rattle.lef_read.specs.Differences.{DiffersBy, HasNetlist};
ghost use Rattle.lef_read.specs.Lookups.{lacks_net, IsLabelLack, IsLackOf};

use crate::cell::{LefPin, Macro};
use crate::claim::claims;
use crate::differ::Differ;
use crate::fit::check_claims;
use crate::metal::check_metal;
use box_geom::Shapes;
use cell_num::copy;
use net_extract::NetMap;
use std::alloc::Global;

fn first_lack<'a>(map: &NetMap, pins: &'a [LefPin]) -> Option<&'a LefPin>
    ensures { option_map (λ p. p.now) result ≡ find (lacks_net map.now) pins.now }
{
    pins.iter()
        .find(|pin| map.net_named(pin.name.as_slice()).is_none())
}

fn no_label(alloc: Global, name: &[u8]) -> Differ
    ensures { IsLabelLack name.now result }
{
    match copy(alloc, name) {
        Ok(name) => Differ::NoLabel { name },
        Err(_) => Differ::NoMemory,
    }
}

// Refuses the first pin whose name is no label.
fn check_labels(alloc: Global, map: &NetMap, pins: &[LefPin]) -> Result<(), Differ>
    ensures all { OnOk result (find (lacks_net map.now) pins.now ≡ None) }
    ensures lack { IfErr result (IsLackOf (find (lacks_net map.now) pins.now)) }
{
    match first_lack(map, pins) {
        Some(pin) => Err(no_label(alloc, pin.name.as_slice())),
        None => Ok(()),
    }
}

/// Whether a macro agrees with a drawing: each pin has the name of a label, each cell of a port is in the
/// net of that label on the port's layer, and each other cell of metal1 or metal2 is in an obstruction of
/// its layer. The answer is the first difference, in the order of `Differ`; ports are looked at in the
/// order of the text, cells by y, then x, then layer.
#[tactic(auto, using(crate::proofs::Answers::answer_rules, crate::proofs::Names::goes_by_name))]
pub fn agree(alloc: Global, shapes: &Shapes, cell: &Macro) -> Result<(), Differ>
    ensures netlist { OnOk result (HasNetlist shapes.now) }
    ensures agrees { OnOk result (Agrees shapes.now cell.now) }
    ensures differs { IfErr result (DiffersBy shapes.now cell.now) }
{
    let map = NetMap::new(alloc, shapes)?;
    check_labels(alloc, &map, cell.pins.as_slice())?;
    let claims = claims(alloc, &map, cell.pins.as_slice())?;
    check_claims(alloc, &map, claims.as_slice())?;
    check_metal(alloc, shapes, cell)
}
