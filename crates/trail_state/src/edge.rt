ghost use Rattle.std.specs.Prelude.{◌≡◌, ◌||◌, ◌==◌};
ghost use Rattle.trail_state.specs.Places.{is_end};

use cell_num::List;

/// The nets at the ends of a finger.
#[derive(Clone, Copy, Debug, PartialEq, Eq, Hash)]
pub struct FingerEnds {
    pub lo: u8,
    pub hi: u8,
}

/// A pair of a P net and an N net, as the number 256 * p + n.
#[derive(Clone, Copy, Debug, PartialEq, Eq, Hash)]
pub struct Node(pub u32);

/// A column with both places filled: the nodes at its two ends, the lesser one first.
#[derive(Clone, Copy, Debug, PartialEq, Eq, Hash)]
pub struct Edge {
    pub a: Node,
    pub b: Node,
}

impl Edge {
    pub(crate) fn has_end(&self, node: &Node) -> bool
        ensures { result ≡ is_end node.now.0 self.now }
    {
        self.a == *node || self.b == *node
    }
}

/// How the fingers of a gate may be paired in columns: the edges, in ascending order.
pub type Choice = List<Edge>;
