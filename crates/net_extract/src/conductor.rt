// All conductor of a drawing as pieces, its gates, contacts and vias.
ghost use Rattle.std.specs.Prelude.{◌≡◌, ◌++◌, IfOk, OnOk};
ghost use Rattle.net_extract.specs.Cuts.{drawn_all, p_diffusion_in, n_diffusion_in, pieces_in, gates_in};
ghost use Rattle.net_extract.specs.Links.{is_linking, links_in};

use crate::cut::without;
use crate::piece::{Conductor, Piece};
use crate::shared::{drawn, within};
use box_geom::{Layer, Shape};
use cell_num::{List, NoMemory};
use std::alloc::Global;

fn p_diffusion(alloc: Global, shapes: &[Shape]) -> Result<List<Piece>, NoMemory>
    ensures { IfOk result (λ ps. ps ≡ p_diffusion_in shapes.now) }
{
    let active = drawn(alloc, shapes, Layer::Active, Conductor::PDiffusion)?;
    let inside = within(alloc, active.as_slice(), shapes, Layer::Well)?;
    without(alloc, inside.as_slice(), shapes, Layer::Poly)
}

fn n_diffusion(alloc: Global, shapes: &[Shape]) -> Result<List<Piece>, NoMemory>
    ensures { IfOk result (λ ps. ps ≡ n_diffusion_in shapes.now) }
{
    let active = drawn(alloc, shapes, Layer::Active, Conductor::NDiffusion)?;
    let outside = without(alloc, active.as_slice(), shapes, Layer::Well)?;
    without(alloc, outside.as_slice(), shapes, Layer::Poly)
}

fn is_link(shape: &Shape) -> bool
    ensures { result ≡ is_linking shape.now.layer }
{
    shape.is_on(Layer::Contact) || shape.is_on(Layer::Via)
}

/// The contacts and the vias.
pub(crate) fn all_links(alloc: Global, shapes: &[Shape]) -> Result<List<Shape>, NoMemory>
    ensures { IfOk result (λ ss. ss ≡ links_in shapes.now) }
{
    let mut out = List::new(alloc);
    for shape in shapes {
        if is_link(shape) {
            out.push(*shape)?;
        }
    }
    Ok(out)
}

fn add_layer(
    alloc: Global,
    all: &mut List<Piece>,
    shapes: &[Shape],
    layer: Layer,
    kind: Conductor,
) -> Result<(), NoMemory>
    ensures { OnOk result (all.new ≡ all.old ++ drawn_all kind layer shapes.now) }
{
    let drawn = drawn(alloc, shapes, layer, kind)?;
    all.extend(drawn.as_slice())
}

/// All conductor as pieces.
pub(crate) fn all_pieces(alloc: Global, shapes: &[Shape]) -> Result<List<Piece>, NoMemory>
    ensures { IfOk result (λ ps. ps ≡ pieces_in shapes.now) }
{
    let mut all = p_diffusion(alloc, shapes)?;
    let outside = n_diffusion(alloc, shapes)?;
    all.extend(outside.as_slice())?;
    add_layer(alloc, &mut all, shapes, Layer::Poly, Conductor::Poly)?;
    add_layer(alloc, &mut all, shapes, Layer::Metal1, Conductor::Metal1)?;
    add_layer(alloc, &mut all, shapes, Layer::Metal2, Conductor::Metal2)?;
    Ok(all)
}

/// The gate cells as pieces of poly.
pub(crate) fn gate_pieces(alloc: Global, shapes: &[Shape]) -> Result<List<Piece>, NoMemory>
    ensures { IfOk result (λ ps. ps ≡ gates_in shapes.now) }
{
    let active = drawn(alloc, shapes, Layer::Active, Conductor::Poly)?;
    within(alloc, active.as_slice(), shapes, Layer::Poly)
}
