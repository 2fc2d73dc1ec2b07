use box_geom::Layer;
use cell_num::{List, NetNo, Row};

/// The heights and the width of a cell, in grid units from its lower left corner.
#[derive(Clone, Copy, Debug, PartialEq, Eq)]
pub struct Frame {
    /// The height of the N row: at least that of a pad and at least each finger's width.
    pub n_height: u32,
    /// The height of the P row, in the same way.
    pub p_height: u32,
    /// The y of the N row's channel edge, its upper one.
    pub n_edge: u32,
    /// The y of the P row's channel edge, its lower one.
    pub p_edge: u32,
    pub width: u32,
}

/// A finger of a transistor, between its two node lines.
#[derive(Clone, Copy, Debug, PartialEq, Eq)]
pub struct Strip {
    pub row: Row,
    /// The x of its left node line, in grid units.
    pub left: u32,
    /// The x of its right node line, in grid units.
    pub right: u32,
    /// The width of the transistor, which is the height of the strip, in grid units.
    pub width: u32,
}

/// A contacted node place.
#[derive(Clone, Copy, Debug, PartialEq, Eq)]
pub struct Contact {
    pub row: Row,
    /// The x of its line, in grid units.
    pub x: u32,
    pub net: NetNo,
    /// The y of the track that a signal's contact reaches, in grid units; none of a rail's.
    pub reach: Option<u32>,
}

/// The gate of a column over its fingers.
#[derive(Clone, Copy, Debug, PartialEq, Eq)]
pub struct Gate {
    /// The x of its line, in grid units.
    pub x: u32,
    pub net: NetNo,
    /// The width of its finger in the N row, in grid units.
    pub n: Option<u32>,
    /// The width of its finger in the P row, in grid units.
    pub p: Option<u32>,
    /// The y of the track of a trunk of its net, in grid units.
    pub track: Option<u32>,
}

/// A stretch of a track between two lines.
#[derive(Debug, PartialEq, Drop)]
pub struct Bar {
    /// The x of its first line, in grid units.
    pub left: u32,
    /// The x of its last line, in grid units.
    pub right: u32,
    /// The y of the track, in grid units.
    pub y: u32,
    pub net: NetNo,
    /// The x of each line at which a contact of its net meets it, in grid units.
    pub vias: List<u32>,
}

/// The place of a net's name, in grid units.
#[derive(Clone, Copy, Debug, PartialEq, Eq)]
pub struct Tag {
    pub layer: Layer,
    pub x: u32,
    pub y: u32,
    pub net: NetNo,
}

/// A cell as numbers, from which its shapes follow.
#[derive(Debug, PartialEq, Drop)]
pub struct Layout {
    pub frame: Frame,
    pub gnd: NetNo,
    pub vdd: NetNo,
    pub strips: List<Strip>,
    pub contacts: List<Contact>,
    pub gates: List<Gate>,
    pub bars: List<Bar>,
    pub tags: List<Tag>,
}
