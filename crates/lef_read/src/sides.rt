use std::marker::Model;

/// The sides of a rectangle in nanometres: they ascend, and none lies beyond 1,000,000 microns.
#[derive(Clone, Copy, Debug)]
pub struct Sides {
    pub x1: i32,
    pub y1: i32,
    pub x2: i32,
    pub y2: i32,
}

impl Model for Sides {
    ghost use Rattle.box_geom.specs.Rectangle.{Rectangle, IsRectangle};

    ghost Value = { Rectangle };

    ghost view = { λ r. record { x1 = r.x1; y1 = r.y1; x2 = r.x2; y2 = r.y2 } };

    ghost invariant = { λ r. IsRectangle (record { x1 = r.x1; y1 = r.y1; x2 = r.x2; y2 = r.y2 }) };

    ghost inverse = { λ b. record { x1 = b.x1; y1 = b.y1; x2 = b.x2; y2 = b.y2 } };
}
