// The metal of a drawing that a macro does not show.
ghost use Rattle.std.specs.Prelude.{◌≡◌, ◌++◌, IfOk, IfErr, IfSome, IsNone, OnOk};
ghost use Rattle.std.specs.List.{All, flat_map};
ghost use Rattle.box_geom.specs.Layers.{rects_on};
ghost use Rattle.box_geom.specs.Regions.{IsBlock, IsEmpty, IsFirst};
ghost use Rattle.lef_read.specs.declared.cell.LefPin.{LefPin as LefPinOf};
ghost use Rattle.lef_read.specs.Agreement.{on_layer, shown_on};
ghost use Rattle.lef_read.specs.Differences.{IsBare, IsBareMetal};
ghost use Rattle.lef_read.specs.Lookups.{bare_as, comes_before, earlier_of, HasLimits, HavePortsLimits, IsBareBy};

use crate::cell::{LefPin, LefRect, Macro};
use crate::differ::Differ;
use crate::region::block_of;
use bare_cells::first_bare;
use box_geom::{Block, Layer, Place, Shape, Shapes};
use cell_num::NoMemory;
use std::alloc::{AllocError, Global};

// Shows a caller's proof the limits of all rectangles; it does nothing.
fn show_limits(rects: &[LefRect])
    ensures { All HasLimits rects.now }
{
    for rect in rects {
        rect.rect.show_limits();
    }
}

fn show_ports_limits(pins: &[LefPin])
    ensures { All HavePortsLimits pins.now }
{
    for pin in pins {
        show_limits(pin.ports.as_slice());
    }
}

fn add_shown(blocks: &mut Vec<Block>, layer: Layer, rects: &[LefRect]) -> Result<(), AllocError>
    ensures { OnOk result (blocks.new.items ≡ blocks.old.items ++ on_layer layer rects.now) }
{
    for rect in rects {
        if rect.layer == layer {
            blocks.push(block_of(&rect.rect))?;
        }
    }
    Ok(())
}

fn add_ports(blocks: &mut Vec<Block>, layer: Layer, pins: &[LefPin]) -> Result<(), AllocError>
    ensures { OnOk result (blocks.new.items
        ≡ blocks.old.items ++ flat_map (λ (p : LefPinOf). on_layer layer p.ports) pins.now) }
{
    for pin in pins {
        add_shown(blocks, layer, pin.ports.as_slice())?;
    }
    Ok(())
}

// The ports and obstructions of a macro on a layer.
#[tactic(auto, using(crate::proofs::BareMetal::shown_blocks))]
fn shown(alloc: Global, layer: Layer, cell: &Macro) -> Result<Vec<Block>, AllocError>
    ensures shown { IfOk result (λ v. v.items ≡ shown_on layer cell.now) }
    ensures blocks { IfOk result (λ v. All IsBlock v.items) }
{
    show_ports_limits(cell.pins.as_slice());
    show_limits(cell.obstructions.as_slice());
    let mut blocks = Vec::new(alloc);
    add_ports(&mut blocks, layer, cell.pins.as_slice())?;
    add_shown(&mut blocks, layer, cell.obstructions.as_slice())?;
    Ok(blocks)
}

fn blocks_on(alloc: Global, layer: Layer, shapes: &[Shape]) -> Result<Vec<Block>, AllocError>
    ensures { IfOk result (λ v. v.items ≡ rects_on layer shapes.now) }
{
    let mut blocks = Vec::new(alloc);
    for shape in shapes {
        if shape.layer == layer {
            blocks.push(block_of(&shape.rect))?;
        }
    }
    Ok(blocks)
}

// What a drawing has on a layer.
#[tactic(auto, using(crate::proofs::BareMetal::drawn_blocks))]
fn drawn(alloc: Global, layer: Layer, shapes: &Shapes) -> Result<Vec<Block>, AllocError>
    ensures drawn { IfOk result (λ v. v.items ≡ rects_on layer shapes.now.rects) }
    ensures blocks { IfOk result (λ v. All IsBlock v.items) }
{
    shapes.show_limits();
    blocks_on(alloc, layer, shapes.rects.as_slice())
}

fn first_on(
    alloc: Global,
    shapes: &Shapes,
    cell: &Macro,
    layer: Layer,
) -> Result<Option<Place>, NoMemory>
    ensures some { IfOk result (λ o. IfSome o (λ p. IsFirst (IsBare shapes.now cell.now layer) p.x p.y)) }
    ensures none { IfOk result (λ o. IsNone o → IsEmpty (IsBare shapes.now cell.now layer)) }
{
    let drawn = drawn(alloc, layer, shapes)?;
    let shown = shown(alloc, layer, cell)?;
    first_bare(alloc, drawn.as_slice(), shown.as_slice())
}

fn does_come_before(one: &Place, other: &Place) -> bool
    ensures { result ≡ comes_before one.now other.now }
{
    one.y < other.y || one.y <= other.y && one.x < other.x
}

fn bare_at(layer: Layer, place: &Place) -> Differ
    ensures { result ≡ bare_as layer place.now }
{
    Differ::Bare {
        layer,
        x: place.x,
        y: place.y,
    }
}

// The first of two bare cells, of metal1 and of metal2.
fn earlier(one: &Place, two: &Place) -> Differ
    ensures { result ≡ earlier_of one.now two.now }
{
    if does_come_before(two, one) {
        bare_at(Layer::Metal2, two)
    } else {
        bare_at(Layer::Metal1, one)
    }
}

/// Refuses the first cell of metal, by y, x and layer, that lies in no port and no obstruction.
#[tactic(auto, using(crate::proofs::BareMetal::bare_rules))]
pub(crate) fn check_metal(alloc: Global, shapes: &Shapes, cell: &Macro) -> Result<(), Differ>
    ensures none { OnOk result (IsEmpty (IsBareMetal shapes.now cell.now)) }
    ensures bare { IfErr result (IsBareBy shapes.now cell.now) }
{
    let one = first_on(alloc, shapes, cell, Layer::Metal1)?;
    let two = first_on(alloc, shapes, cell, Layer::Metal2)?;
    match (one, two) {
        (None, None) => Ok(()),
        (Some(one), None) => Err(bare_at(Layer::Metal1, &one)),
        (None, Some(two)) => Err(bare_at(Layer::Metal2, &two)),
        (Some(one), Some(two)) => Err(earlier(&one, &two)),
    }
}
