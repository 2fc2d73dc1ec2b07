use std::marker::Model;

/// A rectangle of unit cells, in grid units: `x1 < x2`, `y1 < y2`, each from
/// -1,000,000,000 to 1,000,000,000. Contracts see it as its four sides.
#[derive(Clone, Copy, Debug, PartialEq, Eq)]
pub struct Rect {
    pub x1: i32,
    pub y1: i32,
    pub x2: i32,
    pub y2: i32,
}

impl Model for Rect {
    ghost use Rattle.box_geom.specs.Rectangle.{Rectangle, IsRectangle};

    ghost Value = { Rectangle };

    ghost view = { λ r. record { x1 = r.x1; y1 = r.y1; x2 = r.x2; y2 = r.y2 } };

    ghost invariant = { λ r. IsRectangle (record { x1 = r.x1; y1 = r.y1; x2 = r.x2; y2 = r.y2 }) };

    ghost inverse = { λ b. record { x1 = b.x1; y1 = b.y1; x2 = b.x2; y2 = b.y2 } };
}

impl Rect {
    ghost use Rattle.box_geom.specs.Rectangle.{IsRectangle};

    /// Shows a caller's proof the limits of the sides; it does nothing.
    pub fn show_limits(&self)
        ensures { IsRectangle self.now }
    {
        let _ = &self.x1;
    }
}
