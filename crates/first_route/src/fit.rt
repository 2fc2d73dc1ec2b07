// Whether a wire fits on a track beside those that are placed.

ghost use Rattle.std.specs.Prelude.{◌≡◌, ◌&&◌};
ghost use Rattle.std.specs.List.{list_all};
ghost use Rattle.first_route.specs.Ways.{are_apart, concerns, fits, is_clear, is_kept, is_over, on_track};

use channel_route::{Constraint, PlacedWire, Wire};

/// The wire on a track.
pub(crate) fn on_track(wire: &Wire, track: u32) -> PlacedWire
    ensures { result ≡ on_track wire.now track }
{
    PlacedWire { wire: *wire, track }
}

fn are_apart(a: &Wire, b: &Wire) -> bool
    ensures { result ≡ are_apart a.now b.now }
{
    a.right < b.left || b.right < a.left
}

fn is_clear(one: &PlacedWire, other: &PlacedWire) -> bool
    ensures { result ≡ is_clear one.now other.now }
{
    one.track != other.track
        || (one.wire.net.0 == other.wire.net.0 || are_apart(&one.wire, &other.wire))
}

fn is_over(constraint: &Constraint, upper: &PlacedWire, lower: &PlacedWire) -> bool
    ensures { result ≡ is_over constraint.now upper.now lower.now }
{
    !(constraint.upper == upper.wire.key && constraint.lower == lower.wire.key)
        || lower.track < upper.track
}

fn concerns(constraint: &Constraint, one: &PlacedWire) -> bool
    ensures { result ≡ concerns constraint.now one.now }
{
    constraint.upper == one.wire.key || constraint.lower == one.wire.key
}

fn keeps_order(constraint: &Constraint, one: &PlacedWire, placed: &[PlacedWire]) -> bool
    ensures { result ≡ list_all (λ o. is_over constraint.now one.now o && is_over constraint.now o one.now)
        placed.now }
{
    placed.iter().all(|other| is_over(constraint, one, other) && is_over(constraint, other, one))
}

fn is_kept(placed: &[PlacedWire], one: &PlacedWire, constraint: &Constraint) -> bool
    ensures { result ≡ is_kept placed.now one.now constraint.now }
{
    !concerns(constraint, one) || keeps_order(constraint, one, placed)
}

fn are_clear(placed: &[PlacedWire], one: &PlacedWire) -> bool
    ensures { result ≡ list_all (is_clear one.now) placed.now }
{
    placed.iter().all(|other| is_clear(one, other))
}

fn are_kept(constraints: &[Constraint], placed: &[PlacedWire], one: &PlacedWire) -> bool
    ensures { result ≡ list_all (is_kept placed.now one.now) constraints.now }
{
    constraints
        .iter()
        .all(|constraint| is_kept(placed, one, constraint))
}

/// Whether the wire shares no line with one of another net on its track, and is above and below others as the
/// constraints require.
pub(crate) fn fits(constraints: &[Constraint], placed: &[PlacedWire], one: &PlacedWire) -> bool
    ensures { result ≡ fits constraints.now placed.now one.now }
{
    are_clear(placed, one) && are_kept(constraints, placed, one)
}
