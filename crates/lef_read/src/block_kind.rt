use box_geom::Layer;

/// A block of rectangles.
#[derive(Clone, Copy, Debug)]
pub enum Block<'a> {
    /// A port of a pin of a macro.
    OfPin { cell: &'a [u8], pin: &'a [u8] },
    /// The obstructions of a macro.
    OfMacro { cell: &'a [u8] },
}

/// The layer of the rectangles to come in a block.
#[derive(Clone, Copy, Debug, PartialEq, Eq)]
pub enum Current {
    /// No layer is named yet.
    NoLayer,
    /// A layer that is passed over.
    OtherLayer,
    Wires { layer: Layer },
}
