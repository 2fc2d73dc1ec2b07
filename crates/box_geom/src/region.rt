ghost use Rattle.std.specs.Prelude.{◌≡◌, ◌≤◌, ◌↔◌, ◌⊎◌, ℤ, ◌-ℤ◌, IfOk, IfSome, IsNone, IsTrue};
ghost use Rattle.std.specs.List.{All};
ghost use Rattle.box_geom.specs.Rectangle.{Covers};
ghost use Rattle.box_geom.specs.Layers.{rects_on};
ghost use Rattle.box_geom.specs.Regions.{IsBlock, AreBanded, SameCells, OnPlane, IsNear, IsFirst, IsSmall, CoversNone};
ghost use Rattle.box_geom.specs.Banding.{IsMade};

use crate::bands::bands;
use crate::block::Block;
use crate::moving::{all_moved, all_turned, along, outward, whole_plane};
use crate::sweep::Operation;
use crate::{Layer, Rect, Shape, Shapes};
use cell_num::NoMemory;
use std::alloc::{AllocError, Global};
use std::marker::Model;

/// A cell, by its lower left corner, in grid units.
#[derive(Clone, Copy, Debug, PartialEq, Eq)]
pub struct Place {
    pub x: i32,
    pub y: i32,
}

/// A set of cells, as rectangles in horizontal bands that ascend without overlap. The rectangles of
/// a band ascend with room between them: each is as wide as the cells of its rows hang together.
/// Contracts see a region as the list of these rectangles.
#[derive(Debug, Drop)]
pub struct Region {
    blocks: Vec<Block>,
}

impl Model for Region {
    ghost use Rattle.std.specs.Prelude.{List};
    ghost use Rattle.box_geom.specs.Rectangle.{Rectangle};
    ghost use Rattle.box_geom.specs.Regions.{AreBanded};

    ghost Value = { List Rectangle };

    ghost view = { λ r. r.blocks.items };

    ghost invariant = { λ r. AreBanded r.blocks.items };
}

fn made(
    alloc: Global,
    operation: Operation,
    first: &[Block],
    second: &[Block],
) -> Result<Region, NoMemory>
    requires first { All IsBlock first.now }
    requires second { All IsBlock second.now }
    ensures { IfOk result (λ r. IsMade operation first.now second.now r) }
{
    match bands(alloc, operation, first, second) {
        Ok(blocks) => Ok(Region { blocks }),
        Err(_) => Err(NoMemory),
    }
}

fn block_of(rect: &Rect) -> Block
    ensures { result ≡ rect.now }
{
    Block {
        x1: rect.x1,
        y1: rect.y1,
        x2: rect.x2,
        y2: rect.y2,
    }
}

fn blocks_on(alloc: Global, shapes: &[Shape], layer: Layer) -> Result<Vec<Block>, AllocError>
    ensures { IfOk result (λ v. v.items ≡ rects_on layer shapes.now) }
{
    let mut out = Vec::new(alloc);
    for shape in shapes {
        if shape.is_on(layer) {
            out.push(block_of(&shape.rect))?;
        }
    }
    Ok(out)
}

impl Region {
    /// The cells that the rectangles cover.
    pub fn from_blocks(alloc: Global, blocks: &[Block]) -> Result<Region, NoMemory>
        requires { All IsBlock blocks.now }
        ensures { IfOk result (λ r. SameCells r blocks.now) }
    {
        let region = made(alloc, Operation::Either, blocks, &[])?;
        Ok(region)
    }

    /// No cell. It takes no memory.
    pub fn empty(alloc: Global) -> Region
        ensures { CoversNone result }
    {
        Region {
            blocks: Vec::new(alloc),
        }
    }

    /// All cells that regions reach.
    pub fn plane(alloc: Global) -> Result<Region, NoMemory>
        ensures { IfOk result (λ r. (x y : ℤ) → Covers r x y ↔ OnPlane x y) }
    {
        let whole = whole_plane();
        let region = Region::from_blocks(alloc, &[whole])?;
        Ok(region)
    }

    /// The cells that a layer covers.
    pub fn of(alloc: Global, shapes: &Shapes, layer: Layer) -> Result<Region, NoMemory>
        ensures { IfOk result (λ r. SameCells r (rects_on layer shapes.now.rects)) }
    {
        shapes.show_limits();
        let blocks = blocks_on(alloc, shapes.rects.as_slice(), layer)?;
        let region = Region::from_blocks(alloc, blocks.as_slice())?;
        Ok(region)
    }

    /// The rectangles, band by band, in each by x.
    pub fn blocks(&self) -> &[Block]
        ensures all { result.now ≡ self.now }
        ensures banded { AreBanded self.now }
    {
        self.blocks.as_slice()
    }

    /// The cells of both regions.
    pub fn both(&self, alloc: Global, other: &Region) -> Result<Region, NoMemory>
        ensures { IfOk result (λ r. (x y : ℤ) → Covers r x y ↔ (Covers self.now x y × Covers other.now x y)) }
    {
        let region = made(alloc, Operation::Both, self.blocks(), other.blocks())?;
        Ok(region)
    }

    /// The cells of one or both of the regions.
    pub fn either(&self, alloc: Global, other: &Region) -> Result<Region, NoMemory>
        ensures { IfOk result (λ r. (x y : ℤ) → Covers r x y ↔ (Covers self.now x y ⊎ Covers other.now x y)) }
    {
        let region = made(alloc, Operation::Either, self.blocks(), other.blocks())?;
        Ok(region)
    }

    /// The cells of the region that are not cells of the other.
    pub fn minus(&self, alloc: Global, other: &Region) -> Result<Region, NoMemory>
        ensures { IfOk result (λ r. (x y : ℤ) → Covers r x y ↔ (Covers self.now x y × (Covers other.now x y → ⊥))) }
    {
        let region = made(alloc, Operation::Minus, self.blocks(), other.blocks())?;
        Ok(region)
    }

    /// The cells within a distance of some cell of the region, as far as regions reach.
    pub fn grown(&self, alloc: Global, by: u32) -> Result<Region, NoMemory>
        requires { by ≤ 1000 }
        ensures { IfOk result (λ r. (x y : ℤ) → Covers r x y ↔ (OnPlane x y × IsNear self.now by x y)) }
    {
        let moves = outward(by);
        let blocks = all_moved(alloc, self.blocks(), &moves)?;
        let region = Region::from_blocks(alloc, blocks.as_slice())?;
        Ok(region)
    }

    /// The cells of the region, each moved, as far as regions reach.
    pub fn shifted(&self, alloc: Global, dx: i32, dy: i32) -> Result<Region, NoMemory>
        requires dx { IsSmall dx }
        requires dy { IsSmall dy }
        ensures { IfOk result (λ r. (x y : ℤ) → Covers r x y ↔ (OnPlane x y × Covers self.now (x -ℤ dx) (y -ℤ dy))) }
    {
        let moves = along(dx, dy);
        let blocks = all_moved(alloc, self.blocks(), &moves)?;
        let region = Region::from_blocks(alloc, blocks.as_slice())?;
        Ok(region)
    }

    /// The region with x and y exchanged.
    pub fn turned(&self, alloc: Global) -> Result<Region, NoMemory>
        ensures { IfOk result (λ r. (x y : ℤ) → Covers r x y ↔ Covers self.now y x) }
    {
        let blocks = all_turned(alloc, self.blocks())?;
        let region = Region::from_blocks(alloc, blocks.as_slice())?;
        Ok(region)
    }

    /// Whether no cell is in the region.
    pub fn is_empty(&self) -> bool
        ensures { IsTrue result ↔ CoversNone self.now }
    {
        self.blocks().is_empty()
    }

    /// The first cell by y, then x. None where the region is empty.
    pub fn first_cell(&self) -> Option<Place>
        ensures some { IfSome result (λ p. IsFirst (Covers self.now) p.x p.y) }
        ensures none { IsNone result ↔ CoversNone self.now }
    {
        match self.blocks().first() {
            Some(block) => Some(Place {
                x: block.x1,
                y: block.y1,
            }),
            None => None,
        }
    }
}
