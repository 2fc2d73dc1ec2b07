// The nets at the left end of a row, and whether open ends meet them.
ghost use Rattle.std.specs.Prelude.{◌≡◌, ◌↔◌, Contains, IsTrue};
ghost use Rattle.std.specs.Option.{option_map};
ghost use Rattle.row_model.specs.Gaps.{left_net};
ghost use Rattle.row_needs.specs.Rest.{differ, ends_before, is_apart, no_ends};

use cell_num::{List, NetNo};
use row_model::{Column, Placed};

/// The nets at the left end of a row: of its P and of its N finger. There is none of an empty place, and none where the
/// row has no column.
#[derive(Clone, Copy, Debug, PartialEq, Eq)]
pub struct LeftEnds {
    pub p: Option<NetNo>,
    pub n: Option<NetNo>,
}

/// Left ends of several rows.
pub type LeftEndsList = List<LeftEnds>;

fn left_end(place: &Option<Placed>) -> Option<NetNo>
    ensures { result ≡ option_map left_net place.now }
{
    match place {
        Some(x) => Some(x.left()),
        None => None,
    }
}

fn differ(end: Option<NetNo>, other: Option<NetNo>) -> bool
    ensures { result ≡ differ end other }
{
    match (end, other) {
        (Some(net), Some(other)) => net.0 != other.0,
        _ => false,
    }
}

impl LeftEnds {
    /// Those of a row without columns.
    pub(crate) fn none() -> LeftEnds
        ensures { result ≡ no_ends }
    {
        LeftEnds { p: None, n: None }
    }

    /// Those of the rows that begin with the column.
    pub(crate) fn before(column: &Column) -> LeftEnds
        ensures { result ≡ ends_before column.now }
    {
        LeftEnds {
            p: left_end(&column.p),
            n: left_end(&column.n),
        }
    }

    /// Whether there is a gap between a column with these open ends and the first one of a row with these left ends.
    pub(crate) fn is_apart(&self, p_end: Option<NetNo>, n_end: Option<NetNo>) -> bool
        ensures { result ≡ is_apart p_end n_end self.now }
    {
        differ(p_end, self.p) || differ(n_end, self.n)
    }

    /// Whether they are among some.
    pub(crate) fn is_among(&self, all: &[LeftEnds]) -> bool
        ensures { IsTrue result ↔ Contains all.now self.now }
    {
        all.contains(self)
    }
}
