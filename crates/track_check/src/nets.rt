// Which nets have places before a state and after it.
ghost use Rattle.std.specs.Prelude.{◌≡◌, ◌≤◌, ◌↔◌, ◌&&◌, ℕ, IsTrue, ltb, not};
ghost use Rattle.row_trails.specs.Counts.{entry, flag};
ghost use Rattle.row_state.specs.declared.kind.Kinds.{Kinds as KindsOf};
ghost use Rattle.row_state.specs.declared.state.State.{State as StateOf};
ghost use Rattle.row_state.specs.Start.{start_of};
ghost use Rattle.cell_num.specs.Pins.{is_rail};
ghost use Rattle.track_ways.specs.Paths.{EndsFit};
ghost use Rattle.track_ways.specs.States.{is_open_at, is_still_ahead};
ghost use Rattle.track_ways.specs.Tables.{marked};
ghost use Rattle.track_check.specs.Touches.{AreNetsOf, AreTouches};

use cell_num::{NetNo, Pins};
use row_trails::NETS;
use track_ways::is_marked;

/// The nets with a place before the last node line of a state, and those with one at that line or later, by number.
#[derive(Clone, Copy, Debug)]
pub struct StateNets {
    pub before: [bool; NETS],
    pub ahead: [bool; NETS],
}

// The places where the first table has the smaller number.
fn less_at(low: &[u32; NETS], high: &[u32; NETS]) -> [bool; NETS]
    ensures { (u : ℕ) → flag result u ≡ ltb (entry low.now u) (entry high.now u) }
{
    let mut less = [false; NETS];
    for at in 0..NETS {
        less[at] = low[at] < high[at];
    }
    less
}

/// The nets with a place at the last node line of a state or later, where `here` is how often it touches each net.
pub fn nets_ahead(here: &[u32; NETS]) -> [bool; NETS]
    ensures { (k : KindsOf) (s : StateOf) → AreTouches k s here.now → marked result ≡ is_still_ahead k s }
{
    less_at(&[0; NETS], here)
}

/// The nets of a state, where `here` is how often it touches each net, and `all` how often the start state does.
#[tactic(auto, using(crate::proofs::Around::nets_are))]
pub fn state_nets(all: &[u32; NETS], here: &[u32; NETS]) -> StateNets
    ensures { (k : KindsOf) (s : StateOf) → AreTouches k (start_of k) all.now → AreTouches k s here.now
        → AreNetsOf k s result }
{
    StateNets {
        before: less_at(here, all),
        ahead: nets_ahead(here),
    }
}

// Whether the first table has nowhere the greater number.
fn are_at_most(low: &[u32; NETS], high: &[u32; NETS]) -> bool
    ensures { IsTrue result ↔ ((u : ℕ) → entry low.now u ≤ entry high.now u) }
{
    for at in 0..NETS {
        if high[at] < low[at] {
            return false;
        }
    }
    true
}

/// Whether the open ends of a state are ends of fingers that were used.
pub fn ends_fit(all: &[u32; NETS], here: &[u32; NETS]) -> bool
    ensures { (k : KindsOf) (s : StateOf) → AreTouches k (start_of k) all.now → AreTouches k s here.now
        → (IsTrue result ↔ EndsFit k s) }
{
    are_at_most(here, all)
}

fn is_passed(nets: &StateNets, net: NetNo) -> bool
    ensures { result ≡ (marked nets.now.before net && marked nets.now.ahead net) }
{
    is_marked(&nets.before, net) && is_marked(&nets.ahead, net)
}

fn is_open_in(nets: &StateNets, pins: &Pins, net: NetNo) -> bool
    ensures { result ≡ (not (is_rail pins.now net) && (marked nets.now.before net && marked nets.now.ahead net)) }
{
    !pins.is_rail(net) && is_passed(nets, net)
}

impl StateNets {
    /// Whether the net is open at the state: no rail, with a place before its last node line and one at it or later.
    pub fn is_open(&self, pins: &Pins, net: NetNo) -> bool
        ensures { (k : KindsOf) (s : StateOf) → AreNetsOf k s self.now → result ≡ is_open_at pins.now k s net }
    {
        is_open_in(self, pins, net)
    }
}
