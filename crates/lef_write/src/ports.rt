// Which shapes of a drawing are ports, and which are obstructions.
ghost use Rattle.std.specs.Prelude.{◌≡◌, ◌<◌, ◌++◌, length, IfOk, OnOk};
ghost use Rattle.std.specs.List.{flat_map, range_with_len};
ghost use Rattle.lef_write.specs.Ports.{places_on, last_ones, trunk_port, trunk_ports, rail_port, pin_ports};
ghost use Rattle.lef_write.specs.Ports.{ports_on, ports_of, shape_of, port_shapes, is_taken, obstructions_on};

use crate::{Port, PortList};
use box_geom::{Layer, Shape, ShapeList};
use cell_draw::MOST_SHAPES;
use cell_num::{List, NetNo, NoMemory, Pins};
use channel_route::Trunk;
use std::alloc::{AllocError, Global};

fn places_on(alloc: Global, layer: Layer, rects: &[Shape]) -> Result<List<u32>, NoMemory>
    requires { length rects.now < MOST_SHAPES }
    ensures { IfOk result (λ places. places ≡ places_on layer rects.now) }
{
    let mut places = List::new(alloc);
    'shapes: for (at, shape) in rects.iter().enumerate() {
        if shape.is_on(layer) {
            places.push(at as u32)?;
        }
    }
    Ok(places)
}

fn last_ones(count: usize, places: &[u32]) -> &[u32]
    ensures { result.now ≡ last_ones count places.now }
{
    &places[places.len().saturating_sub(count)..]
}

fn trunk_port(pin: NetNo, trunk: &Trunk, place: u32) -> Option<Port>
    ensures { result ≡ trunk_port pin (trunk.now, place) }
{
    if trunk.net == pin {
        Some(Port { pin, shape: place })
    } else {
        None
    }
}

fn trunk_ports(
    alloc: Global,
    pin: NetNo,
    trunks: &[Trunk],
    places: &[u32],
) -> Result<Vec<Port>, AllocError>
    ensures { IfOk result (λ ports. ports.items ≡ trunk_ports pin trunks.now places.now) }
{
    trunks
        .iter()
        .zip(places.iter())
        .filter_map(|pair| trunk_port(pin, pair.0, *pair.1))
        .collect(alloc)
}

fn add_rail(ports: &mut PortList, pin: NetNo, place: Option<u32>) -> Result<(), NoMemory>
    ensures { OnOk result (ports.new ≡ ports.old ++ rail_port pin place) }
{
    match place {
        Some(shape) => ports.push(Port { pin, shape }),
        None => Ok(()),
    }
}

fn add_trunks(
    alloc: Global,
    ports: &mut PortList,
    pin: NetNo,
    trunks: &[Trunk],
    places: &[u32],
) -> Result<(), NoMemory>
    ensures { OnOk result (ports.new ≡ ports.old ++ trunk_ports pin trunks.now places.now) }
{
    let found = trunk_ports(alloc, pin, trunks, places)?;
    ports.extend(&found)
}

fn add_ports(
    alloc: Global,
    ports: &mut PortList,
    pins: &Pins,
    trunks: &[Trunk],
    metal: &[u32],
    pin: NetNo,
) -> Result<(), NoMemory>
    ensures { OnOk result (ports.new ≡ ports.old ++ pin_ports pins.now trunks.now metal.now pin) }
{
    if pin == pins.gnd {
        add_rail(ports, pin, metal.get(0).copied())
    } else if pin == pins.vdd {
        add_rail(ports, pin, metal.get(1).copied())
    } else {
        add_trunks(alloc, ports, pin, trunks, last_ones(trunks.len(), metal))
    }
}

fn ports_among(
    alloc: Global,
    pins: &Pins,
    trunks: &[Trunk],
    metal: &[u32],
) -> Result<PortList, NoMemory>
    ensures { IfOk result (λ ports.
        ports ≡ flat_map (ports_on pins.now trunks.now metal.now) (range_with_len 0 pins.now.pins)) }
{
    let mut ports = PortList::new(alloc);
    for pin in 0..pins.pins {
        add_ports(alloc, &mut ports, pins, trunks, metal, NetNo(pin))?;
    }
    Ok(ports)
}

/// The ports of a cell's pins in a drawing of it: each pin's rail or the trunks of its net.
pub fn ports_of(
    alloc: Global,
    pins: &Pins,
    trunks: &[Trunk],
    rects: &[Shape],
) -> Result<PortList, NoMemory>
    requires { length rects.now < MOST_SHAPES }
    ensures { IfOk result (λ ports. ports ≡ ports_of pins.now trunks.now rects.now) }
{
    let metal = places_on(alloc, Layer::Metal1, rects)?;
    ports_among(alloc, pins, trunks, metal.as_slice())
}

fn shape_of(pin: NetNo, rects: &[Shape], port: &Port) -> Option<Shape>
    ensures { result ≡ shape_of pin rects.now port.now }
{
    if port.pin == pin {
        rects.get(port.shape as usize).copied()
    } else {
        None
    }
}

/// The shapes at the ports of a pin.
pub fn port_shapes(
    alloc: Global,
    ports: &[Port],
    rects: &[Shape],
    pin: NetNo,
) -> Result<Vec<Shape>, AllocError>
    ensures { IfOk result (λ shapes. shapes.items ≡ port_shapes ports.now rects.now pin) }
{
    ports
        .iter()
        .filter_map(|port| shape_of(pin, rects, port))
        .collect(alloc)
}

fn is_taken(ports: &[Port], place: usize) -> bool
    ensures { result ≡ is_taken ports.now place }
{
    ports.iter().any(|port| port.shape as usize == place)
}

/// The shapes of a layer that are no ports.
pub fn obstructions_on(
    alloc: Global,
    layer: Layer,
    ports: &[Port],
    rects: &[Shape],
) -> Result<ShapeList, NoMemory>
    ensures { IfOk result (λ shapes. shapes ≡ obstructions_on layer ports.now rects.now) }
{
    let mut found = ShapeList::new(alloc);
    'shapes: for (at, shape) in rects.iter().enumerate() {
        if shape.is_on(layer) && !is_taken(ports, at) {
            found.push(*shape)?;
        }
    }
    Ok(found)
}
