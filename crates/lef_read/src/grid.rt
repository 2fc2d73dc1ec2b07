ghost use Rattle.std.specs.Prelude.{◌≡◌, ◌≤◌, ℤ, pos, neg_ℤ, ◌≤ℤ◌, IfSome};
ghost use Rattle.lef_read.specs.Macros.{units_in, sides_in};

use crate::sides::Sides;
use box_geom::Rect;

// Nanometres in grid units, if they are a whole number of these.
#[tactic(auto, using(crate::proofs::Gridding::within_least, crate::proofs::Gridding::within_most))]
fn units(nanometres: i32, unit: u32) -> Option<i32>
    requires unit { 1 ≤ unit }
    requires least { neg_ℤ (pos 1000000000) ≤ℤ nanometres }
    requires most { nanometres ≤ℤ pos 1000000000 }
    ensures is { result ≡ units_in unit nanometres }
    ensures least { IfSome result (λ z. neg_ℤ (pos 1000000000) ≤ℤ z) }
    ensures most { IfSome result (λ z. z ≤ℤ pos 1000000000) }
{
    let wide = i64::from(nanometres);
    let step = i64::from(unit);
    if wide.rem_euclid(step) != 0 {
        return None;
    }
    Some(wide.div_euclid(step) as i32)
}

/// The sides in grid units, if each is a whole number of these.
pub fn on_grid(sides: &Sides, unit: u32) -> Option<Rect>
    requires { 1 ≤ unit }
    ensures { result ≡ sides_in unit sides.now }
{
    let x1 = units(sides.x1, unit)?;
    let y1 = units(sides.y1, unit)?;
    let x2 = units(sides.x2, unit)?;
    let y2 = units(sides.y2, unit)?;
    Some(Rect { x1, y1, x2, y2 })
}
