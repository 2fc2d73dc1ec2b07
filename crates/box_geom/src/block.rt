ghost use Rattle.std.specs.Prelude.{◌≡◌, ◌≤◌};
ghost use Rattle.box_geom.specs.Comparisons.{beside, stacked, touching};
ghost use Rattle.box_geom.specs.Moving.{is_proper, shared, widened_by, near_part};
ghost use Rattle.box_geom.specs.Regions.{IsBlock};

use crate::span::{overlap, reach};
use std::marker::Model;

/// A rectangle of a region, in grid units: `x1 < x2`, `y1 < y2`, each from -2,000,000,000 to
/// 2,000,000,000. Contracts see it as its four sides.
#[derive(Clone, Copy, Debug, PartialEq, Eq)]
pub struct Block {
    pub x1: i32,
    pub y1: i32,
    pub x2: i32,
    pub y2: i32,
}

impl Model for Block {
    ghost use Rattle.box_geom.specs.Rectangle.{Rectangle};

    ghost Value = { Rectangle };

    ghost view = { λ b. record { x1 = b.x1; y1 = b.y1; x2 = b.x2; y2 = b.y2 } };

    ghost inverse = { λ r. record { x1 = r.x1; y1 = r.y1; x2 = r.x2; y2 = r.y2 } };
}

impl Block {
    fn is_beside(&self, other: &Block) -> bool
        ensures { result ≡ beside self.now other.now }
    {
        reach(self.x1, self.x2, other.x1, other.x2) && overlap(self.y1, self.y2, other.y1, other.y2)
    }

    fn is_stacked(&self, other: &Block) -> bool
        ensures { result ≡ stacked self.now other.now }
    {
        overlap(self.x1, self.x2, other.x1, other.x2) && reach(self.y1, self.y2, other.y1, other.y2)
    }

    /// Whether the sides of the two meet: where they ascend, whether the rectangles share a cell or
    /// a piece of an edge.
    pub fn does_touch(&self, other: &Block) -> bool
        ensures { result ≡ touching self.now other.now }
    {
        self.is_beside(other) || self.is_stacked(other)
    }

    /// Whether the sides ascend, so that some cell is in the rectangle.
    pub fn does_ascend(&self) -> bool
        ensures { result ≡ is_proper self.now }
    {
        self.x1 < self.x2 && self.y1 < self.y2
    }

    // The rectangle of the cells of both. Where there are none, its sides do not ascend.
    pub(crate) fn common(&self, other: &Block) -> Block
        ensures { result ≡ shared self.now other.now }
    {
        Block {
            x1: self.x1.max(other.x1),
            y1: self.y1.max(other.y1),
            x2: self.x2.min(other.x2),
            y2: self.y2.min(other.y2),
        }
    }

    fn widened(&self, by: u32) -> Block
        requires block { IsBlock self.now }
        requires small { by ≤ 1000 }
        ensures { result ≡ widened_by by self.now }
    {
        let by = by as i32;
        Block {
            x1: self.x1 - by,
            y1: self.y1 - by,
            x2: self.x2 + by,
            y2: self.y2 + by,
        }
    }

    /// The part of the rectangle within a distance of the other. Where there is none, its sides do
    /// not ascend.
    pub fn part_near(&self, other: &Block, by: u32) -> Block
        requires block { IsBlock other.now }
        requires small { by ≤ 1000 }
        ensures { result ≡ near_part by self.now other.now }
    {
        self.common(&other.widened(by))
    }
}
