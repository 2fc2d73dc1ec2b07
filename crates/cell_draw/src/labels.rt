// The places of the names of nets, and the labels there.

ghost use Rattle.std.specs.Prelude.{◌≡◌, ◌≤◌, ◌+◌, ◌==◌, ◌++◌, [], get_or, option_to_list, All, IfOk, OnOk, map, find};
ghost use Rattle.std.specs.Option.{option_copied};
ghost use Rattle.cell_draw.specs.Drawings.{label_of};
ghost use Rattle.cell_draw.specs.Layouts.{node_tag, gate_y, gate_tag, metal_tag, place_tag, net_tag, tag_of, tags_of};
ghost use Rattle.cell_draw.specs.Small.{IsSmallFrame, IsSmallTag};

use crate::contacts::trunk_of;
use crate::frame::track_y;
use crate::{
    Frame, Gate, LABEL_ON_FINGER, LABEL_ON_GATE, LABEL_ON_GND, LABEL_ON_VDD, MOST_TRACKS, Tag,
};
use box_geom::{Label, LabelList, Layer};
use cell_num::{List, Name, NetNo, NoMemory, Pins, Row};
use channel_route::Trunk;
use row_compact::{SIDE_SPACE, x_of};
use row_place::NodePlace;
use std::alloc::Global;

fn node_tag(frame: &Frame, xs: &[u32], node: &NodePlace) -> Tag
    requires { IsSmallFrame frame.now }
    ensures { result ≡ node_tag frame.now xs.now node.now }
{
    let y = match node.row {
        Row::P => frame.p_edge + LABEL_ON_FINGER,
        Row::N => frame.n_edge - LABEL_ON_FINGER,
    };
    Tag {
        layer: Layer::Active,
        x: x_of(xs, node.line),
        y,
        net: node.net,
    }
}

fn gate_y(frame: &Frame, n: Option<u32>) -> u32
    requires { IsSmallFrame frame.now }
    ensures { result ≡ gate_y frame.now n }
{
    match n {
        Some(_) => frame.n_edge + LABEL_ON_GATE,
        None => frame.p_edge - LABEL_ON_GATE,
    }
}

fn gate_tag(frame: &Frame, gate: &Gate) -> Tag
    requires { IsSmallFrame frame.now }
    ensures { result ≡ gate_tag frame.now gate.now }
{
    Tag {
        layer: Layer::Poly,
        x: gate.x,
        y: gate_y(frame, gate.n),
        net: gate.net,
    }
}

fn metal_tag(x: u32, y: u32, net: NetNo) -> Tag
    ensures { result ≡ metal_tag x y net }
{
    Tag {
        layer: Layer::Metal1,
        x,
        y,
        net,
    }
}

fn node_of(nodes: &[NodePlace], net: NetNo) -> Option<&NodePlace>
    ensures { option_copied result ≡ find (λ node. node.net.0 == net.0) nodes.now }
{
    nodes.iter().find(|node| node.net.0 == net.0)
}

fn gate_of(gates: &[Gate], net: NetNo) -> Option<&Gate>
    ensures { option_copied result ≡ find (λ gate. gate.net.0 == net.0) gates.now }
{
    gates.iter().find(|gate| gate.net.0 == net.0)
}

// At the first place of a net.
fn place_tag(
    frame: &Frame,
    nodes: &[NodePlace],
    xs: &[u32],
    gates: &[Gate],
    net: NetNo,
) -> Option<Tag>
    requires { IsSmallFrame frame.now }
    ensures { result ≡ place_tag frame.now nodes.now xs.now gates.now net }
{
    if let Some(node) = node_of(nodes, net) {
        return Some(node_tag(frame, xs, node));
    }
    match gate_of(gates, net) {
        Some(gate) => Some(gate_tag(frame, gate)),
        None => None,
    }
}

// On the trunk of a net, or else at its first place.
#[tactic(auto, using(crate::proofs::Found::found_track))]
fn net_tag(
    frame: &Frame,
    nodes: &[NodePlace],
    trunks: &[Trunk],
    xs: &[u32],
    gates: &[Gate],
    net: NetNo,
) -> Option<Tag>
    requires frame { IsSmallFrame frame.now }
    requires trunks { All (λ trunk. trunk.track ≤ MOST_TRACKS) trunks.now }
    ensures { result ≡ net_tag frame.now nodes.now trunks.now xs.now gates.now net }
{
    match trunk_of(trunks, net) {
        Some(trunk) => Some(metal_tag(x_of(xs, trunk.left), track_y(frame, trunk.track), net)),
        None => place_tag(frame, nodes, xs, gates, net),
    }
}

fn tag_of(
    frame: &Frame,
    pins: &Pins,
    nodes: &[NodePlace],
    trunks: &[Trunk],
    xs: &[u32],
    gates: &[Gate],
    net: NetNo,
) -> Option<Tag>
    requires frame { IsSmallFrame frame.now }
    requires trunks { All (λ trunk. trunk.track ≤ MOST_TRACKS) trunks.now }
    ensures { result ≡ tag_of pins.now frame.now nodes.now trunks.now xs.now gates.now net }
{
    if net.0 == pins.gnd.0 {
        Some(metal_tag(SIDE_SPACE, LABEL_ON_GND, net))
    } else if net.0 == pins.vdd.0 {
        let y = frame.p_edge + frame.p_height + LABEL_ON_VDD;
        Some(metal_tag(SIDE_SPACE, y, net))
    } else {
        net_tag(frame, nodes, trunks, xs, gates, net)
    }
}

fn add_tag(tags: &mut List<Tag>, tag: Option<Tag>) -> Result<(), NoMemory>
    ensures { OnOk result (tags.new ≡ tags.old ++ option_to_list tag) }
{
    match tag {
        Some(tag) => tags.push(tag),
        None => Ok(()),
    }
}

/// A tag for each net of the cell, in order of net.
pub fn tags(
    alloc: Global,
    frame: &Frame,
    nets: u32,
    pins: &Pins,
    nodes: &[NodePlace],
    trunks: &[Trunk],
    xs: &[u32],
    gates: &[Gate],
) -> Result<List<Tag>, NoMemory>
    requires frame { IsSmallFrame frame.now }
    requires trunks { All (λ trunk. trunk.track ≤ MOST_TRACKS) trunks.now }
    ensures { IfOk result (λ tags. tags ≡ tags_of pins.now frame.now nets nodes.now trunks.now xs.now gates.now) }
{
    let mut tags = List::new(alloc);
    for net in 0..nets {
        let tag = tag_of(frame, pins, nodes, trunks, xs, gates, NetNo(net));
        add_tag(&mut tags, tag)?;
    }
    Ok(tags)
}

fn name_of(alloc: Global, names: &[Name], net: NetNo) -> Result<Name, NoMemory>
    ensures { IfOk result (λ name. name ≡ get_or names.now net.0 []) }
{
    match names.get(net.0 as usize) {
        Some(name) => Ok(name.clone()?),
        None => Ok(Name::new(alloc)),
    }
}

fn label_of(alloc: Global, names: &[Name], tag: &Tag) -> Result<Label, NoMemory>
    requires { IsSmallTag tag.now }
    ensures { IfOk result (λ label. label ≡ label_of names.now tag.now) }
{
    let name = name_of(alloc, names, tag.net)?;
    Ok(Label {
        layer: tag.layer,
        x: tag.x as i32,
        y: tag.y as i32,
        name,
    })
}

/// The names of the nets at their tags.
pub fn labels(alloc: Global, names: &[Name], tags: &[Tag]) -> Result<LabelList, NoMemory>
    requires { All IsSmallTag tags.now }
    ensures { IfOk result (λ labels. labels ≡ map (label_of names.now) tags.now) }
{
    let mut labels = LabelList::new(alloc);
    for tag in tags {
        labels.push(label_of(alloc, names, tag)?)?;
    }
    Ok(labels)
}
