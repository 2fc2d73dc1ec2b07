// The ports of a macro with the nets of their pins.
ghost use Rattle.std.specs.Prelude.{◌≡◌, ◌++◌, Some, None, false, IfOk, OnOk};
ghost use Rattle.std.specs.List.{All, find};
ghost use Rattle.lef_read.specs.Agreement.{ports_of, ports_of_pin};
ghost use Rattle.net_extract.specs.NetMaps.{net_named};
ghost use Rattle.lef_read.specs.Lookups.{lacks_net, ports_shown, AreClaims, GoesByName, IsClaim, IsNetOf};

use crate::cell::LefPin;
use crate::region::block_of;
use box_geom::{Block, Layer};
use net_extract::NetMap;
use std::alloc::{AllocError, Global};

/// A rectangle of a port on a layer, and the number of the net that it must be on.
#[derive(Clone, Copy)]
pub struct Claim {
    pub net: u32,
    pub layer: Layer,
    pub block: Block,
}

#[tactic(auto, using(crate::proofs::Names::is_claim, crate::proofs::Names::shown_is))]
fn add_ports(
    claims: &mut Vec<Claim>,
    map: &NetMap,
    net: u32,
    pin: &LefPin,
) -> Result<(), AllocError>
    requires net { IsNetOf map.now pin.now net }
    requires all { All (IsClaim map.now) claims.old.items }
    ensures shown { OnOk result (ports_shown map.now claims.new.items
        ≡ ports_shown map.now claims.old.items ++ ports_of_pin pin.now) }
    ensures all { OnOk result (All (IsClaim map.now) claims.new.items) }
{
    for port in pin.ports.as_slice() {
        claims.push(Claim {
            net,
            layer: port.layer,
            block: block_of(&port.rect),
        })?;
    }
    Ok(())
}

fn add_pin(claims: &mut Vec<Claim>, map: &NetMap, pin: &LefPin) -> Result<(), AllocError>
    requires labelled { lacks_net map.now pin.now ≡ false }
    requires named { GoesByName map.now pin.now }
    requires all { All (IsClaim map.now) claims.old.items }
    ensures shown { OnOk result (ports_shown map.now claims.new.items
        ≡ ports_shown map.now claims.old.items ++ ports_of_pin pin.now) }
    ensures all { OnOk result (All (IsClaim map.now) claims.new.items) }
{
    match map.net_named(pin.name.as_slice()) {
        Some(net) => add_ports(claims, map, net, pin),
        None => unreachable!(),
    }
}

/// The ports of all pins, in their order.
#[tactic(auto, using(crate::proofs::Names::labelled_at))]
pub(crate) fn claims(alloc: Global, map: &NetMap, pins: &[LefPin]) -> Result<Vec<Claim>, AllocError>
    requires labelled { find (lacks_net map.now) pins.now ≡ None }
    requires named { All (GoesByName map.now) pins.now }
    ensures { IfOk result (λ v. AreClaims map.now (ports_of pins.now) v.items) }
{
    let mut claims = Vec::new(alloc);
    for pin in pins {
        add_pin(&mut claims, map, pin)?;
    }
    Ok(claims)
}
