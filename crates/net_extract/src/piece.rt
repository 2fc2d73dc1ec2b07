// Rectangles of conductor.

/// The kinds of conductor.
#[derive(Clone, Copy, Debug, PartialEq, Eq, PartialOrd, Ord)]
pub enum Conductor {
    PDiffusion,
    NDiffusion,
    Poly,
    Metal1,
    Metal2,
}

/// A rectangle of one kind of conductor. Pieces come in the order of their first cells.
#[derive(Clone, Copy, Debug, PartialEq, Eq, PartialOrd, Ord)]
pub struct Piece {
    pub low: i32,
    pub left: i32,
    pub kind: Conductor,
    pub top: i32,
    pub right: i32,
}
