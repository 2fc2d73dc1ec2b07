// Spans of places on one axis, each with its end left out.
ghost use Rattle.std.specs.Prelude.{◌≡◌};
ghost use Rattle.box_geom.specs.Comparisons.{within, overlapping, reaching, gap_of};

// Whether a place lies in a span.
#[tactic(auto, unfolding(crate::specs::Comparisons::within))]
pub(crate) fn in_span(low: i32, high: i32, at: i32) -> bool
    ensures { result ≡ within low high at }
{
    low <= at && at < high
}

/// Whether the spans from `a` to before `b` and from `c` to before `d` have a place in common.
#[tactic(auto, unfolding(crate::specs::Comparisons::overlapping))]
pub fn overlap(a: i32, b: i32, c: i32, d: i32) -> bool
    ensures { result ≡ overlapping a b c d }
{
    a < d && c < b
}

/// Whether the spans from `a` to `b` and from `c` to `d` have a place or an end in common.
#[tactic(auto, unfolding(crate::specs::Comparisons::reaching))]
pub fn reach(a: i32, b: i32, c: i32, d: i32) -> bool
    ensures { result ≡ reaching a b c d }
{
    a <= d && c <= b
}

// How far two spans that have no place in common lie apart.
#[tactic(auto, unfolding(crate::specs::Comparisons::gap_of))]
pub(crate) fn gap(a: i32, b: i32, c: i32, d: i32) -> u32
    ensures { result ≡ gap_of a b c d }
{
    if b <= c { c.abs_diff(b) } else { a.abs_diff(d) }
}
