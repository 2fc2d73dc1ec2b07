ghost use Rattle.std.specs.Prelude.{◌≡◌};
ghost use Rattle.box_geom.specs.Regions.{IsBlock};

use box_geom::{Block, Rect};

/// The rectangle, as one of a region.
pub(crate) fn block_of(rect: &Rect) -> Block
    ensures same { result ≡ rect.now }
    ensures block { IsBlock result }
{
    rect.show_limits();
    Block {
        x1: rect.x1,
        y1: rect.y1,
        x2: rect.x2,
        y2: rect.y2,
    }
}
