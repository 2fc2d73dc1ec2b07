// Cells of a set near cells of the set that no chain of shared edges leads to.
ghost use Rattle.std.specs.Prelude.{◌≡◌, ◌≤◌, ◌++◌, length, IfOk, OnOk};
ghost use Rattle.std.specs.List.{All, flat_map};
ghost use Rattle.box_geom.specs.Rectangle.{Covers};
ghost use Rattle.box_geom.specs.Regions.{IsBlock};
ghost use Rattle.scmos_rules.specs.Apart.{link_of, some_part, hits_of};
ghost use Rattle.scmos_rules.specs.Failing.{FailsApart, FailsSpacing};
ghost use Rattle.scmos_rules.specs.Layout.{On};
ghost use Rattle.scmos_rules.specs.Near.{IsNumberedBlock, near_over};
ghost use Rattle.scmos_rules.specs.Cells.{AreCells};

use crate::parts::{NumberedBlock, near_behind, parts_of};
use crate::runs::short_gaps;
use crate::sets::on;
use box_geom::{Block, Layer, Region, Shapes};
use cell_num::NoMemory;
use number_trees::{Link, classes};
use std::alloc::{AllocError, Global};

fn add_links(
    links: &mut Vec<Link>,
    part: &NumberedBlock,
    near: &[NumberedBlock],
) -> Result<(), AllocError>
    ensures { OnOk result (links.new.items ≡ links.old.items ++ flat_map (link_of part.now) near.now) }
{
    for other in near {
        if part.block.does_touch(&other.block) {
            links.push(Link {
                one: part.number,
                other: other.number,
            })?;
        }
    }
    Ok(())
}

fn all_links(alloc: Global, parts: &[NumberedBlock]) -> Result<Vec<Link>, AllocError>
    ensures { IfOk result (λ v. v.items ≡ near_over 1 link_of parts.now) }
{
    let mut links = Vec::new(alloc);
    let mut rest = parts;
    while let [part, behind @ ..] = rest {
        let near = near_behind(alloc, part, behind, 1)?;
        add_links(&mut links, part, near.as_slice())?;
        rest = behind;
    }
    Ok(links)
}

fn add_part(out: &mut Vec<Block>, block: &Block, other: &Block, by: u32) -> Result<(), AllocError>
    requires other { IsBlock other.now }
    requires small { by ≤ 1000 }
    ensures { OnOk result (out.new.items ≡ out.old.items ++ some_part by block.now other.now) }
{
    let part = block.part_near(other, by);
    if part.does_ascend() {
        out.push(part)?;
    }
    Ok(())
}

fn add_hits(
    out: &mut Vec<Block>,
    part: &NumberedBlock,
    near: &[NumberedBlock],
    labels: &[usize],
    by: u32,
) -> Result<(), AllocError>
    requires part { IsNumberedBlock (length labels.now) part.now }
    requires near { All (IsNumberedBlock (length labels.now)) near.now }
    requires small { by ≤ 1000 }
    ensures { OnOk result (out.new.items ≡ out.old.items ++ flat_map (hits_of by labels.now part.now) near.now) }
{
    for other in near {
        if labels[part.number] != labels[other.number] {
            add_part(out, &part.block, &other.block, by)?;
            add_part(out, &other.block, &part.block, by)?;
        }
    }
    Ok(())
}

fn all_hits(
    alloc: Global,
    parts: &[NumberedBlock],
    labels: &[usize],
    by: u32,
) -> Result<Vec<Block>, AllocError>
    requires parts { All (IsNumberedBlock (length labels.now)) parts.now }
    requires small { by ≤ 1000 }
    ensures { IfOk result (λ v. v.items ≡ near_over by (hits_of by labels.now) parts.now) }
{
    let mut out = Vec::new(alloc);
    let mut rest = parts;
    while let [part, behind @ ..] = rest {
        let near = near_behind(alloc, part, behind, by)?;
        add_hits(&mut out, part, near.as_slice(), labels, by)?;
        rest = behind;
    }
    Ok(out)
}

// The cells of a set with a cell of another class within a distance.
fn near_others(alloc: Global, set: &Region, by: u32) -> Result<Region, NoMemory>
    requires small { by ≤ 1000 }
    ensures { IfOk result (λ r. AreCells (FailsApart (Covers set.now) by) r) }
{
    let blocks = set.blocks();
    let parts = parts_of(alloc, blocks)?;
    let links = all_links(alloc, parts.as_slice())?;
    let labels = classes(alloc, blocks.len(), links.as_slice())?;
    let hits = all_hits(alloc, parts.as_slice(), labels.as_slice(), by)?;
    let region = Region::from_blocks(alloc, hits.as_slice())?;
    Ok(region)
}

fn has_fewer(one: &Region, other: &Region) -> bool {
    one.blocks().len() < other.blocks().len()
}

// The same, of the set with x and y exchanged where that has fewer rectangles: the bands of a comb are many one way and
// few the other.
fn near_others_turned(alloc: Global, set: &Region, by: u32) -> Result<Region, NoMemory>
    requires small { by ≤ 1000 }
    ensures { IfOk result (λ r. AreCells (FailsApart (Covers set.now) by) r) }
{
    let turned = set.turned(alloc)?;
    if has_fewer(&turned, set) {
        let near = near_others(alloc, &turned, by)?;
        let region = near.turned(alloc)?;
        return Ok(region);
    }
    let region = near_others(alloc, set, by)?;
    Ok(region)
}

// The cells of gaps below a value on a layer, and those within it of another class.
pub(crate) fn spacing(
    alloc: Global,
    shapes: &Shapes,
    layer: Layer,
    value: u32,
) -> Result<Region, NoMemory>
    requires small { value ≤ 1000 }
    ensures { IfOk result (λ r. AreCells (FailsSpacing (On layer shapes.now.rects) value) r) }
{
    let set = on(alloc, shapes, layer)?;
    let gaps = short_gaps(alloc, &set, value)?;
    let near = near_others_turned(alloc, &set, value)?;
    let region = gaps.either(alloc, &near)?;
    Ok(region)
}
