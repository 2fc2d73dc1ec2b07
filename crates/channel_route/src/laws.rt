ghost use Rattle.std.specs.Prelude.{◌≡◌, List};
ghost use Rattle.cell_num.specs.declared.net.Pins.{Pins};
ghost use Rattle.row_place.specs.declared.placement.Placement.{Placement};
ghost use Rattle.row_place.specs.Places.{IsPlacement};
ghost use Rattle.row_place.specs.Trunks.{HasPins};
ghost use Rattle.channel_route.specs.declared.routing.Routing.{Routing};
ghost use Rattle.channel_route.specs.declared.routing.Above.{Above};
ghost use Rattle.channel_route.specs.Routing.{HasTightRouting, IsLegal, IsTight};
ghost use Rattle.channel_route.specs.Cycle.{IsCycle, HasOneInBothRows, HasNoCycle};
ghost use Rattle.channel_route.specs.Told.{IsTold};

/// A placement has one legal and tight routing at most. It does nothing: its contract is the law.
pub fn one_routing()
    ensures { (placement : Placement) (pins : Pins) (a b : Routing)
        → IsLegal placement pins a → IsTight placement pins a
        → IsLegal placement pins b → IsTight placement pins b → a ≡ b }
{}

/// A placement in which each pin other than the rails has a place, and no cycle, has a legal and tight routing. It does
/// nothing: its contract is the law.
pub fn some_routing()
    ensures { (placement : Placement) (pins : Pins) → HasPins placement pins → HasNoCycle placement pins
        → HasTightRouting placement pins }
{}

/// Each net of a cycle has node places in both rows, so there is none where only one net with a trunk
/// has. It does nothing: its contract is the law.
pub fn no_cycle()
    ensures { (placement : Placement) (pins : Pins) → HasOneInBothRows placement pins → HasNoCycle placement pins }
{}

/// At most one cycle is reported, and it is a cycle. It does nothing: its contract is the law.
pub fn one_told()
    ensures cycle { (placement : Placement) (pins : Pins) (cycle : List Above)
        → IsTold placement pins cycle → IsCycle placement pins cycle }
    ensures one { (placement : Placement) (pins : Pins) (a b : List Above)
        → IsPlacement placement → IsTold placement pins a → IsTold placement pins b → a ≡ b }
{}
