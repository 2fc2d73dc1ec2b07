// The cells of all layers as slabs: the bands of each layer, with their ranges.
ghost use Rattle.std.specs.Prelude.{◌≡◌, ◌↔◌, ℤ, IfOk};
ghost use Rattle.std.specs.List.{All, AllPairs};
ghost use Rattle.box_geom.specs.Rectangle.{Covers};
ghost use Rattle.box_geom.specs.Layers.{rects_on};
ghost use Rattle.box_geom.specs.Slabbing.{IsSlab, StandsBelow, SlabsCover, across};
ghost use Rattle.box_geom.specs.Slabbing.{slab_of as slab_over, AreSlabsOf, AreSlabsUpTo, all_layers};

use crate::block::Block;
use crate::ranges::XRange;
use crate::standing::count_begun;
use crate::{Layer, Region, Shapes};
use cell_num::{List, NoMemory};
use std::alloc::Global;

/// Ranges of x, ascending.
pub type XRangeList = List<XRange>;

/// Slabs layer by layer, on each by ascending y.
pub type SlabList = List<Slab>;

/// The cells (x, y) of a layer with `y1 <= y < y2` and `x1 <= x < x2` for one of the ranges, in grid
/// units. The ranges ascend, with room between them.
#[derive(Clone, Debug, PartialEq, Eq, Drop)]
pub struct Slab {
    pub layer: Layer,
    pub y1: i32,
    pub y2: i32,
    pub ranges: XRangeList,
}

/// The cells that the layers cover, layer by layer, on each by ascending y without overlap.
#[derive(Clone, Debug, PartialEq, Eq, Drop)]
pub struct Slabs {
    pub list: SlabList,
}

const LAYERS: [Layer; 9] = [
    Layer::Well,
    Layer::Active,
    Layer::PSelect,
    Layer::NSelect,
    Layer::Poly,
    Layer::Contact,
    Layer::Metal1,
    Layer::Via,
    Layer::Metal2,
];

fn layers() -> &'static [Layer]
    ensures { result.now ≡ all_layers }
{
    &LAYERS
}

fn range_of(block: &Block) -> XRange
    ensures { result ≡ across block.now }
{
    XRange {
        x1: block.x1,
        x2: block.x2,
    }
}

fn slab_of(alloc: Global, layer: Layer, first: &Block, band: &[Block]) -> Result<Slab, NoMemory>
    ensures { IfOk result (λ s. s ≡ slab_over layer first.now band.now) }
{
    let mut ranges = XRangeList::new(alloc);
    for block in band {
        ranges.push(range_of(block))?;
    }
    Ok(Slab {
        layer,
        y1: first.y1,
        y2: first.y2,
        ranges,
    })
}

fn slabs_on(alloc: Global, layer: Layer, region: &Region) -> Result<SlabList, NoMemory>
    ensures { IfOk result (λ list. AreSlabsOf layer region.now list) }
{
    let mut slabs = SlabList::new(alloc);
    let mut rest = region.blocks();
    while let [first, ..] = rest {
        let (band, after) = rest.split_at(count_begun(rest, first.y1));
        let slab = slab_of(alloc, layer, first, band)?;
        slabs.push(slab)?;
        rest = after;
    }
    Ok(slabs)
}

fn all_slabs(alloc: Global, shapes: &Shapes) -> Result<Vec<Slab>, NoMemory>
    ensures { IfOk result (λ v. AreSlabsUpTo 9 shapes.now.rects v.items) }
{
    let mut slabs = Vec::new(alloc);
    for layer in layers() {
        let region = Region::of(alloc, shapes, *layer)?;
        let mut more = slabs_on(alloc, *layer, &region)?.into_vec();
        slabs.append(&mut more)?;
    }
    Ok(slabs)
}

impl Slabs {
    /// The slabs of all layers.
    #[tactic(auto, using(crate::proofs::Slabbing::whole))]
    pub fn new(alloc: Global, shapes: &Shapes) -> Result<Slabs, NoMemory>
        ensures slabs { IfOk result (λ s. All IsSlab s.list) }
        ensures order { IfOk result (λ s. AllPairs StandsBelow s.list) }
        ensures cells { IfOk result (λ s. (layer : Layer) (x y : ℤ) → SlabsCover s.list layer x y ↔
            Covers (rects_on layer shapes.now.rects) x y) }
    {
        let slabs = all_slabs(alloc, shapes)?;
        Ok(Slabs {
            list: List::from_vec(slabs),
        })
    }
}
