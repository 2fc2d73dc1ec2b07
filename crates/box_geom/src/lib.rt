// Rectangles of unit cells on the layers of a drawing, and what they cover.
#![tactic(auto)]

mod bands;
pub mod block;
pub mod cuts;
pub mod layer;
mod moving;
pub mod ranges;
pub mod rect;
pub mod region;
pub mod shape;
pub mod slab;
mod span;
mod standing;
mod sweep;
pub mod touching;

pub use block::Block;
use cell_num::List;
pub use cuts::Cuts;
pub use layer::Layer;
pub use ranges::XRange;
pub use rect::Rect;
pub use region::{Place, Region};
pub use shape::{Label, Shape, Shapes, covered};
pub use slab::{Slab, SlabList, Slabs, XRangeList};
pub use span::{overlap, reach};
pub use touching::{facing_gap, touches};

/// Shapes in the order of their drawing.
pub type ShapeList = List<Shape>;

/// Labels in the order of their drawing.
pub type LabelList = List<Label>;

/// Values of one axis, in grid units.
pub type CoordList = List<i32>;
