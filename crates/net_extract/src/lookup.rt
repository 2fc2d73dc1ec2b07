// The net of a place, and the nets of labels.
ghost use Rattle.std.specs.Prelude.{◌≡◌, ◌++◌, IfOk, IfErr, OnOk, None, option_to_list};
ghost use Rattle.std.specs.Option.{option_map};
ghost use Rattle.std.specs.List.{find};
ghost use Rattle.box_geom.specs.Comparisons.{within, holding};
ghost use Rattle.net_extract.specs.Labels.{is_conductor};
ghost use Rattle.net_extract.specs.Lookups.{is_at, net_in, net_on, or_else, net_round, is_lost};
ghost use Rattle.net_extract.specs.Lookups.{net_label_of, net_labels_in, IsStrayOf, IsLostBy};
ghost use Rattle.net_extract.specs.Pieces.{rect_of};

use crate::connections::Wire;
use crate::fault::ExtractFault;
use crate::naming::NetLabel;
use crate::piece::{Conductor, Piece};
use box_geom::{Label, Layer};
use cell_num::{NoMemory, copy};
use std::alloc::Global;

#[tactic(auto, unfolding(box_geom::specs::Comparisons::within))]
pub(crate) fn is_within(low: i32, high: i32, at: i64) -> bool
    ensures { result ≡ within low high at }
{
    i64::from(low) <= at && at < i64::from(high)
}

fn does_hold(piece: &Piece, x: i64, y: i64) -> bool
    ensures { result ≡ holding (rect_of piece.now) x y }
{
    is_within(piece.left, piece.right, x) && is_within(piece.low, piece.top, y)
}

fn is_there(piece: &Piece, kind: Conductor, x: i64, y: i64) -> bool
    ensures { result ≡ is_at piece.now kind x y }
{
    piece.kind == kind && does_hold(piece, x, y)
}

/// The net of the conductor cell of a kind; None where there is none.
pub(crate) fn net_of_cell(wires: &[Wire], kind: Conductor, x: i64, y: i64) -> Option<u32>
    ensures { result ≡ net_in wires.now kind x y }
{
    wires
        .iter()
        .find(|wire| is_there(&wire.piece, kind, x, y))
        .map(|wire| wire.net)
}

fn first_of(one: Option<u32>, other: Option<u32>) -> Option<u32>
    ensures { result ≡ or_else one other }
{
    match one {
        Some(net) => Some(net),
        None => other,
    }
}

fn net_of_layer(wires: &[Wire], layer: Layer, x: i64, y: i64) -> Option<u32>
    ensures { result ≡ net_on wires.now layer x y }
{
    match layer {
        Layer::Active => first_of(
            net_of_cell(wires, Conductor::PDiffusion, x, y),
            net_of_cell(wires, Conductor::NDiffusion, x, y),
        ),
        Layer::Poly => net_of_cell(wires, Conductor::Poly, x, y),
        Layer::Metal1 => net_of_cell(wires, Conductor::Metal1, x, y),
        Layer::Metal2 => net_of_cell(wires, Conductor::Metal2, x, y),
        Layer::Well | Layer::PSelect | Layer::NSelect | Layer::Contact | Layer::Via => None,
    }
}

// The net of the first of the cells right above a point, left above, right below and left below.
fn net_of_point(wires: &[Wire], layer: Layer, x: i32, y: i32) -> Option<u32>
    ensures { result ≡ net_round wires.now layer x y }
{
    let (x, y) = (i64::from(x), i64::from(y));
    let above = first_of(
        net_of_layer(wires, layer, x, y),
        net_of_layer(wires, layer, x - 1, y),
    );
    let below = first_of(
        net_of_layer(wires, layer, x, y - 1),
        net_of_layer(wires, layer, x - 1, y - 1),
    );
    first_of(above, below)
}

fn is_conductor(layer: Layer) -> bool
    ensures { result ≡ is_conductor layer }
{
    layer == Layer::Active
        || layer == Layer::Poly
        || layer == Layer::Metal1
        || layer == Layer::Metal2
}

fn is_stray(wires: &[Wire], label: &Label) -> bool
    ensures { result ≡ is_lost wires.now label.now }
{
    is_conductor(label.layer) && net_of_point(wires, label.layer, label.x, label.y).is_none()
}

fn first_stray<'a>(wires: &[Wire], labels: &'a [Label]) -> Option<&'a Label>
    ensures { option_map (λ l. l.now) result ≡ find (is_lost wires.now) labels.now }
{
    labels.iter().find(|label| is_stray(wires, label))
}

fn stray(alloc: Global, name: &[u8]) -> ExtractFault
    ensures { IsStrayOf name.now result }
{
    match copy(alloc, name) {
        Ok(name) => ExtractFault::Stray { name },
        Err(_) => ExtractFault::NoMemory,
    }
}

/// Refuses the first label that belongs to no conductor cell.
pub(crate) fn check_strays(
    alloc: Global,
    wires: &[Wire],
    labels: &[Label],
) -> Result<(), ExtractFault>
    ensures none { OnOk result (find (is_lost wires.now) labels.now ≡ None) }
    ensures stray { IfErr result (λ f. IsLostBy (find (is_lost wires.now) labels.now) f) }
{
    match first_stray(wires, labels) {
        Some(label) => Err(stray(alloc, label.name.as_slice())),
        None => Ok(()),
    }
}

fn net_label(alloc: Global, wires: &[Wire], label: &Label) -> Result<Option<NetLabel>, NoMemory>
    ensures { IfOk result (λ h. h ≡ net_label_of wires.now label.now) }
{
    if !is_conductor(label.layer) {
        return Ok(None);
    }
    match net_of_point(wires, label.layer, label.x, label.y) {
        Some(net) => Ok(Some(NetLabel {
            name: copy(alloc, label.name.as_slice())?,
            net,
        })),
        None => Ok(None),
    }
}

fn add_net_label(
    alloc: Global,
    wires: &[Wire],
    label: &Label,
    all: &mut Vec<NetLabel>,
) -> Result<(), NoMemory>
    ensures { OnOk result (all.new.items ≡ all.old.items ++ option_to_list (net_label_of wires.now label.now)) }
{
    match net_label(alloc, wires, label)? {
        Some(net_label) => all.push(net_label).map_err(|_| NoMemory),
        None => Ok(()),
    }
}

/// The labels on layers of conductors with the nets that they belong to.
pub(crate) fn all_net_labels(
    alloc: Global,
    wires: &[Wire],
    labels: &[Label],
) -> Result<Vec<NetLabel>, NoMemory>
    ensures { IfOk result (λ h. h.items ≡ net_labels_in wires.now labels.now) }
{
    let mut all = Vec::new(alloc);
    for label in labels {
        add_net_label(alloc, wires, label, &mut all)?;
    }
    Ok(all)
}
