// The sets of cells of a layout that the rules speak of, as regions.
ghost use Rattle.std.specs.Prelude.{IfOk};
ghost use Rattle.scmos_rules.specs.Layout.{On, Gate, Diffusion, FieldPoly, InWell, OutOfWell};
ghost use Rattle.scmos_rules.specs.Layout.{WellTap, SubstrateTap, PActive, NActive, PSelected};
ghost use Rattle.scmos_rules.specs.Layout.{NSelected, PolyContact, DiffusionContact, BareContact};
ghost use Rattle.scmos_rules.specs.Cells.{AreCells, AreInner};
ghost use Rattle.scmos_rules.specs.declared.rules.Deck.TheVariants.{Taps};

use crate::rules::Deck;
use box_geom::{Layer, Region, Shapes};
use cell_num::NoMemory;
use std::alloc::Global;

pub(crate) fn on(alloc: Global, shapes: &Shapes, layer: Layer) -> Result<Region, NoMemory>
    ensures cells { IfOk result (λ r. AreCells (On layer shapes.now.rects) r) }
    ensures inner { IfOk result (λ r. AreInner r) }
{
    shapes.show_limits();
    let region = Region::of(alloc, shapes, layer)?;
    Ok(region)
}

pub(crate) fn gate(alloc: Global, shapes: &Shapes) -> Result<Region, NoMemory>
    ensures cells { IfOk result (λ r. AreCells (Gate shapes.now.rects) r) }
    ensures inner { IfOk result (λ r. AreInner r) }
{
    let active = on(alloc, shapes, Layer::Active)?;
    let poly = on(alloc, shapes, Layer::Poly)?;
    let region = active.both(alloc, &poly)?;
    Ok(region)
}

pub(crate) fn diffusion(alloc: Global, shapes: &Shapes) -> Result<Region, NoMemory>
    ensures cells { IfOk result (λ r. AreCells (Diffusion shapes.now.rects) r) }
    ensures inner { IfOk result (λ r. AreInner r) }
{
    let active = on(alloc, shapes, Layer::Active)?;
    let poly = on(alloc, shapes, Layer::Poly)?;
    let region = active.minus(alloc, &poly)?;
    Ok(region)
}

pub(crate) fn field_poly(alloc: Global, shapes: &Shapes) -> Result<Region, NoMemory>
    ensures cells { IfOk result (λ r. AreCells (FieldPoly shapes.now.rects) r) }
    ensures inner { IfOk result (λ r. AreInner r) }
{
    let poly = on(alloc, shapes, Layer::Poly)?;
    let active = on(alloc, shapes, Layer::Active)?;
    let region = poly.minus(alloc, &active)?;
    Ok(region)
}

fn in_well(alloc: Global, shapes: &Shapes) -> Result<Region, NoMemory>
    ensures cells { IfOk result (λ r. AreCells (InWell shapes.now.rects) r) }
    ensures inner { IfOk result (λ r. AreInner r) }
{
    let active = on(alloc, shapes, Layer::Active)?;
    let well = on(alloc, shapes, Layer::Well)?;
    let region = active.both(alloc, &well)?;
    Ok(region)
}

fn out_of_well(alloc: Global, shapes: &Shapes) -> Result<Region, NoMemory>
    ensures cells { IfOk result (λ r. AreCells (OutOfWell shapes.now.rects) r) }
    ensures inner { IfOk result (λ r. AreInner r) }
{
    let active = on(alloc, shapes, Layer::Active)?;
    let well = on(alloc, shapes, Layer::Well)?;
    let region = active.minus(alloc, &well)?;
    Ok(region)
}

pub(crate) fn well_tap(alloc: Global, shapes: &Shapes) -> Result<Region, NoMemory>
    ensures cells { IfOk result (λ r. AreCells (WellTap shapes.now.rects) r) }
    ensures inner { IfOk result (λ r. AreInner r) }
{
    let active = in_well(alloc, shapes)?;
    let select = on(alloc, shapes, Layer::NSelect)?;
    let region = active.both(alloc, &select)?;
    Ok(region)
}

pub(crate) fn substrate_tap(alloc: Global, shapes: &Shapes) -> Result<Region, NoMemory>
    ensures cells { IfOk result (λ r. AreCells (SubstrateTap shapes.now.rects) r) }
    ensures inner { IfOk result (λ r. AreInner r) }
{
    let active = out_of_well(alloc, shapes)?;
    let select = on(alloc, shapes, Layer::PSelect)?;
    let region = active.both(alloc, &select)?;
    Ok(region)
}

fn p_active_beside_taps(alloc: Global, shapes: &Shapes) -> Result<Region, NoMemory>
    ensures cells { IfOk result (λ r. AreCells (PActive Taps shapes.now.rects) r) }
    ensures inner { IfOk result (λ r. AreInner r) }
{
    let active = in_well(alloc, shapes)?;
    let select = on(alloc, shapes, Layer::NSelect)?;
    let region = active.minus(alloc, &select)?;
    Ok(region)
}

fn n_active_beside_taps(alloc: Global, shapes: &Shapes) -> Result<Region, NoMemory>
    ensures cells { IfOk result (λ r. AreCells (NActive Taps shapes.now.rects) r) }
    ensures inner { IfOk result (λ r. AreInner r) }
{
    let active = out_of_well(alloc, shapes)?;
    let select = on(alloc, shapes, Layer::PSelect)?;
    let region = active.minus(alloc, &select)?;
    Ok(region)
}

pub(crate) fn p_active(alloc: Global, shapes: &Shapes, deck: Deck) -> Result<Region, NoMemory>
    ensures cells { IfOk result (λ r. AreCells (PActive deck shapes.now.rects) r) }
    ensures inner { IfOk result (λ r. AreInner r) }
{
    match deck {
        Deck::Plain => in_well(alloc, shapes),
        Deck::Taps => p_active_beside_taps(alloc, shapes),
    }
}

pub(crate) fn n_active(alloc: Global, shapes: &Shapes, deck: Deck) -> Result<Region, NoMemory>
    ensures cells { IfOk result (λ r. AreCells (NActive deck shapes.now.rects) r) }
    ensures inner { IfOk result (λ r. AreInner r) }
{
    match deck {
        Deck::Plain => out_of_well(alloc, shapes),
        Deck::Taps => n_active_beside_taps(alloc, shapes),
    }
}

fn p_active_and_taps(alloc: Global, shapes: &Shapes) -> Result<Region, NoMemory>
    ensures cells { IfOk result (λ r. AreCells (PSelected Taps shapes.now.rects) r) }
    ensures inner { IfOk result (λ r. AreInner r) }
{
    let active = p_active_beside_taps(alloc, shapes)?;
    let taps = substrate_tap(alloc, shapes)?;
    let region = active.either(alloc, &taps)?;
    Ok(region)
}

fn n_active_and_taps(alloc: Global, shapes: &Shapes) -> Result<Region, NoMemory>
    ensures cells { IfOk result (λ r. AreCells (NSelected Taps shapes.now.rects) r) }
    ensures inner { IfOk result (λ r. AreInner r) }
{
    let active = n_active_beside_taps(alloc, shapes)?;
    let taps = well_tap(alloc, shapes)?;
    let region = active.either(alloc, &taps)?;
    Ok(region)
}

// What P select must surround.
pub(crate) fn p_selected(alloc: Global, shapes: &Shapes, deck: Deck) -> Result<Region, NoMemory>
    ensures cells { IfOk result (λ r. AreCells (PSelected deck shapes.now.rects) r) }
    ensures inner { IfOk result (λ r. AreInner r) }
{
    match deck {
        Deck::Plain => in_well(alloc, shapes),
        Deck::Taps => p_active_and_taps(alloc, shapes),
    }
}

// What N select must surround.
pub(crate) fn n_selected(alloc: Global, shapes: &Shapes, deck: Deck) -> Result<Region, NoMemory>
    ensures cells { IfOk result (λ r. AreCells (NSelected deck shapes.now.rects) r) }
    ensures inner { IfOk result (λ r. AreInner r) }
{
    match deck {
        Deck::Plain => out_of_well(alloc, shapes),
        Deck::Taps => n_active_and_taps(alloc, shapes),
    }
}

pub(crate) fn poly_contact(alloc: Global, shapes: &Shapes) -> Result<Region, NoMemory>
    ensures cells { IfOk result (λ r. AreCells (PolyContact shapes.now.rects) r) }
    ensures inner { IfOk result (λ r. AreInner r) }
{
    let contact = on(alloc, shapes, Layer::Contact)?;
    let poly = on(alloc, shapes, Layer::Poly)?;
    let region = contact.both(alloc, &poly)?;
    Ok(region)
}

pub(crate) fn diffusion_contact(alloc: Global, shapes: &Shapes) -> Result<Region, NoMemory>
    ensures cells { IfOk result (λ r. AreCells (DiffusionContact shapes.now.rects) r) }
    ensures inner { IfOk result (λ r. AreInner r) }
{
    let contact = on(alloc, shapes, Layer::Contact)?;
    let diffusion = diffusion(alloc, shapes)?;
    let region = contact.both(alloc, &diffusion)?;
    Ok(region)
}

// Contacts without poly, and of these the ones without active.
pub(crate) fn bare_contact(alloc: Global, shapes: &Shapes) -> Result<Region, NoMemory>
    ensures { IfOk result (λ r. AreCells (BareContact shapes.now.rects) r) }
{
    let contact = on(alloc, shapes, Layer::Contact)?;
    let poly = on(alloc, shapes, Layer::Poly)?;
    let active = on(alloc, shapes, Layer::Active)?;
    let rest = contact.minus(alloc, &poly)?;
    let region = rest.minus(alloc, &active)?;
    Ok(region)
}
