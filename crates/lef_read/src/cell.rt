use box_geom::{Layer, Rect};
use cell_num::{List, Name};

/// A rectangle of a macro on metal1 or metal2, in grid units.
#[derive(Clone, Copy, Debug, PartialEq, Eq)]
pub struct LefRect {
    pub layer: Layer,
    pub rect: Rect,
}

pub type LefRectList = List<LefRect>;

/// A pin of a macro with the rectangles of all its ports.
#[derive(Clone, Debug, PartialEq, Eq, Drop)]
pub struct LefPin {
    pub name: Name,
    pub ports: LefRectList,
}

pub type LefPinList = List<LefPin>;

/// A macro: its pins and its obstructions, each in the order of the text.
#[derive(Clone, Debug, PartialEq, Eq, Drop)]
pub struct Macro {
    pub name: Name,
    pub pins: LefPinList,
    pub obstructions: LefRectList,
}
