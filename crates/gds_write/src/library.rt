// The structures of a library that is written.
use box_geom::Shapes;
use cell_num::{List, Name};

/// The structure of that name with its origin at that point, in grid units.
#[derive(Clone, Debug, PartialEq, Eq, Drop)]
pub struct Ref {
    pub name: Name,
    pub x: i32,
    pub y: i32,
}

pub type RefList = List<Ref>;

/// A structure of a library: its name, its own rectangles and labels, and the structures that it
/// refers to.
#[derive(Clone, Debug, PartialEq, Eq, Drop)]
pub struct Struct {
    pub name: Name,
    pub shapes: Shapes,
    pub refs: RefList,
}

pub type StructList = List<Struct>;
