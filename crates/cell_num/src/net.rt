ghost use Rattle.std.specs.Prelude.{◌≡◌, ◌↔◌, IsTrue};
ghost use Rattle.cell_num.specs.Pins.{IsRail, is_rail};

/// A net, by its number.
#[derive(Clone, Copy, Debug, PartialEq, Eq, PartialOrd, Ord)]
pub struct NetNo(pub u32);

/// The pins of a cell: the nets numbered below `pins`, the two different rails among them.
#[derive(Clone, Copy, Debug, PartialEq, Eq)]
pub struct Pins {
    pub pins: u32,
    pub vdd: NetNo,
    pub gnd: NetNo,
}

impl Pins {
    /// Whether the net is one of the two rails.
    pub fn is_rail(&self, net: NetNo) -> bool
        ensures rail { IsTrue result ↔ IsRail self.now net }
        ensures test { result ≡ is_rail self.now net }
    {
        net == self.vdd || net == self.gnd
    }
}
