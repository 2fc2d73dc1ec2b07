ghost use Rattle.std.specs.Prelude.{◌≡◌, ◌↔◌, IsTrue};

use crate::{ListedPlace, PlaceClass, PoolBalance, PoolLine};
use trail_log::NetPair;

/// What a line lists.
pub(crate) trait Same: Drop + Sized {
    fn is_same(&self, other: &Self) -> bool
        ensures { IsTrue result ↔ (self.now ≡ other.now) };
}

/// Whether the lists have equal items in the same order.
pub(crate) fn are_same<T: Same>(items: &[T], others: &[T]) -> bool
    ensures { IsTrue result ↔ (items.now ≡ others.now) }
{
    if items.len() != others.len() {
        return false;
    }
    'items: for at in 0..items.len() {
        if !items[at].is_same(&others[at]) {
            return false;
        }
    }
    true
}

impl Same for NetPair {
    fn is_same(&self, other: &Self) -> bool {
        self.p == other.p && self.n == other.n
    }
}

impl Same for PoolBalance {
    fn is_same(&self, other: &Self) -> bool {
        *self == *other
    }
}

impl Same for ListedPlace {
    fn is_same(&self, other: &Self) -> bool {
        match (self, other) {
            (ListedPlace::Node(node), ListedPlace::Node(other_node)) => node.is_same(other_node),
            (
                ListedPlace::Pool { row, net },
                ListedPlace::Pool {
                    row: other_row,
                    net: other_net,
                },
            ) => row == other_row && net == other_net,
            _ => false,
        }
    }
}

impl Same for PlaceClass {
    fn is_same(&self, other: &Self) -> bool {
        if self.flagged != other.flagged {
            return false;
        }
        are_same(self.places.as_slice(), other.places.as_slice())
    }
}

impl PoolLine {
    /// Whether the lines are equal, number by number and list by list.
    pub fn is_same(&self, other: &PoolLine) -> bool
        ensures { IsTrue result ↔ (self.now ≡ other.now) }
    {
        if self.bound != other.bound || self.done != other.done {
            return false;
        }
        if !are_same(self.odd.as_slice(), other.odd.as_slice()) {
            return false;
        }
        if !are_same(self.balances.as_slice(), other.balances.as_slice()) {
            return false;
        }
        are_same(self.classes.as_slice(), other.classes.as_slice())
    }
}
