// Rules on sets that several layers make.
ghost use Rattle.std.specs.Prelude.{IfOk};
ghost use Rattle.box_geom.specs.declared.layer.Layer.TheVariants.{Well, Active, PSelect, NSelect, Poly, Contact, Via};
ghost use Rattle.scmos_rules.specs.Failing.{FailsSurround, FailsAway, FailsPartly};
ghost use Rattle.scmos_rules.specs.Layout.{On, Gate, WellTap, SubstrateTap, PActive, NActive, PSelected};
ghost use Rattle.scmos_rules.specs.Layout.{NSelected, PolyContact, DiffusionContact, BareContact};
ghost use Rattle.scmos_rules.specs.Cells.{AreCells};
ghost use Rattle.scmos_rules.specs.Regions.{EitherOf};

use crate::nearby::{layer_partly, not_away, not_surrounded};
use crate::rules::Deck;
use crate::sets::{
    bare_contact, diffusion_contact, gate, n_active, n_selected, on, p_active, p_selected,
    poly_contact, substrate_tap, well_tap,
};
use box_geom::{Layer, Region, Shapes};
use cell_num::NoMemory;
use std::alloc::Global;

fn p_active_not_in_well(alloc: Global, shapes: &Shapes, deck: Deck) -> Result<Region, NoMemory>
    ensures { IfOk result (λ r. AreCells
        (FailsSurround (PActive deck shapes.now.rects) (On Well shapes.now.rects) 12) r) }
{
    let active = p_active(alloc, shapes, deck)?;
    let well = on(alloc, shapes, Layer::Well)?;
    let region = not_surrounded(alloc, &active, &well, 12)?;
    Ok(region)
}

fn n_active_near_well(alloc: Global, shapes: &Shapes, deck: Deck) -> Result<Region, NoMemory>
    ensures { IfOk result (λ r. AreCells (FailsAway (NActive deck shapes.now.rects) (On Well shapes.now.rects) 12) r) }
{
    let active = n_active(alloc, shapes, deck)?;
    let well = on(alloc, shapes, Layer::Well)?;
    let region = not_away(alloc, &active, &well, 12)?;
    Ok(region)
}

// P active too near the end of the well, and N active too near the well.
pub(crate) fn well_edge(alloc: Global, shapes: &Shapes, deck: Deck) -> Result<Region, NoMemory>
    ensures { IfOk result (λ r. AreCells (EitherOf
        (FailsSurround (PActive deck shapes.now.rects) (On Well shapes.now.rects) 12)
        (FailsAway (NActive deck shapes.now.rects) (On Well shapes.now.rects) 12)) r) }
{
    let inside = p_active_not_in_well(alloc, shapes, deck)?;
    let outside = n_active_near_well(alloc, shapes, deck)?;
    let region = inside.either(alloc, &outside)?;
    Ok(region)
}

fn well_tap_not_in_well(alloc: Global, shapes: &Shapes) -> Result<Region, NoMemory>
    ensures { IfOk result (λ r. AreCells (FailsSurround (WellTap shapes.now.rects) (On Well shapes.now.rects) 6) r) }
{
    let taps = well_tap(alloc, shapes)?;
    let well = on(alloc, shapes, Layer::Well)?;
    let region = not_surrounded(alloc, &taps, &well, 6)?;
    Ok(region)
}

fn substrate_tap_near_well(alloc: Global, shapes: &Shapes) -> Result<Region, NoMemory>
    ensures { IfOk result (λ r. AreCells (FailsAway (SubstrateTap shapes.now.rects) (On Well shapes.now.rects) 6) r) }
{
    let taps = substrate_tap(alloc, shapes)?;
    let well = on(alloc, shapes, Layer::Well)?;
    let region = not_away(alloc, &taps, &well, 6)?;
    Ok(region)
}

// Taps too near the end of the well.
pub(crate) fn tap_edge(alloc: Global, shapes: &Shapes) -> Result<Region, NoMemory>
    ensures { IfOk result (λ r. AreCells (EitherOf
        (FailsSurround (WellTap shapes.now.rects) (On Well shapes.now.rects) 6)
        (FailsAway (SubstrateTap shapes.now.rects) (On Well shapes.now.rects) 6)) r) }
{
    let inside = well_tap_not_in_well(alloc, shapes)?;
    let outside = substrate_tap_near_well(alloc, shapes)?;
    let region = inside.either(alloc, &outside)?;
    Ok(region)
}

fn not_in_p_select(alloc: Global, shapes: &Shapes, deck: Deck) -> Result<Region, NoMemory>
    ensures { IfOk result (λ r. AreCells
        (FailsSurround (PSelected deck shapes.now.rects) (On PSelect shapes.now.rects) 4) r) }
{
    let active = p_selected(alloc, shapes, deck)?;
    let select = on(alloc, shapes, Layer::PSelect)?;
    let region = not_surrounded(alloc, &active, &select, 4)?;
    Ok(region)
}

fn not_in_n_select(alloc: Global, shapes: &Shapes, deck: Deck) -> Result<Region, NoMemory>
    ensures { IfOk result (λ r. AreCells
        (FailsSurround (NSelected deck shapes.now.rects) (On NSelect shapes.now.rects) 4) r) }
{
    let active = n_selected(alloc, shapes, deck)?;
    let select = on(alloc, shapes, Layer::NSelect)?;
    let region = not_surrounded(alloc, &active, &select, 4)?;
    Ok(region)
}

// Active that its select does not surround.
pub(crate) fn select_edge(alloc: Global, shapes: &Shapes, deck: Deck) -> Result<Region, NoMemory>
    ensures { IfOk result (λ r. AreCells (EitherOf
        (FailsSurround (PSelected deck shapes.now.rects) (On PSelect shapes.now.rects) 4)
        (FailsSurround (NSelected deck shapes.now.rects) (On NSelect shapes.now.rects) 4)) r) }
{
    let p = not_in_p_select(alloc, shapes, deck)?;
    let n = not_in_n_select(alloc, shapes, deck)?;
    let region = p.either(alloc, &n)?;
    Ok(region)
}

fn poly_contact_not_in(alloc: Global, shapes: &Shapes) -> Result<Region, NoMemory>
    ensures { IfOk result (λ r. AreCells
        (FailsSurround (PolyContact shapes.now.rects) (On Poly shapes.now.rects) 3) r) }
{
    let contact = poly_contact(alloc, shapes)?;
    let poly = on(alloc, shapes, Layer::Poly)?;
    let region = not_surrounded(alloc, &contact, &poly, 3)?;
    Ok(region)
}

// Contacts on nothing, and contacts to poly too near its edge.
pub(crate) fn contact_edge(alloc: Global, shapes: &Shapes) -> Result<Region, NoMemory>
    ensures { IfOk result (λ r. AreCells (EitherOf
        (BareContact shapes.now.rects)
        (FailsSurround (PolyContact shapes.now.rects) (On Poly shapes.now.rects) 3)) r) }
{
    let bare = bare_contact(alloc, shapes)?;
    let edge = poly_contact_not_in(alloc, shapes)?;
    let region = bare.either(alloc, &edge)?;
    Ok(region)
}

// Contacts to diffusion too near the edge of active.
pub(crate) fn diffusion_edge(alloc: Global, shapes: &Shapes) -> Result<Region, NoMemory>
    ensures { IfOk result (λ r. AreCells
        (FailsSurround (DiffusionContact shapes.now.rects) (On Active shapes.now.rects) 3) r) }
{
    let contact = diffusion_contact(alloc, shapes)?;
    let active = on(alloc, shapes, Layer::Active)?;
    let region = not_surrounded(alloc, &contact, &active, 3)?;
    Ok(region)
}

// Contacts too near a gate.
pub(crate) fn gate_distance(alloc: Global, shapes: &Shapes) -> Result<Region, NoMemory>
    ensures { IfOk result (λ r. AreCells (FailsAway (On Contact shapes.now.rects) (Gate shapes.now.rects) 4) r) }
{
    let contact = on(alloc, shapes, Layer::Contact)?;
    let gates = gate(alloc, shapes)?;
    let region = not_away(alloc, &contact, &gates, 4)?;
    Ok(region)
}

// Vias too near an edge of poly or of active.
pub(crate) fn via_over_edge(alloc: Global, shapes: &Shapes) -> Result<Region, NoMemory>
    ensures { IfOk result (λ r. AreCells (EitherOf
        (FailsPartly (On Via shapes.now.rects) (On Poly shapes.now.rects) 4)
        (FailsPartly (On Via shapes.now.rects) (On Active shapes.now.rects) 4)) r) }
{
    let poly = layer_partly(alloc, shapes, Layer::Via, Layer::Poly, 4)?;
    let active = layer_partly(alloc, shapes, Layer::Via, Layer::Active, 4)?;
    let region = poly.either(alloc, &active)?;
    Ok(region)
}
