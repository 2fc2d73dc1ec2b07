ghost use Rattle.std.specs.Prelude.{◌≤◌, ◌<◌, ℕ, List, length};
ghost use Rattle.cell_num.specs.declared.net.Pins.{Pins};
ghost use Rattle.cell_num.specs.Pins.{ArePins};
ghost use Rattle.row_place.specs.declared.placement.Placement.{Placement};
ghost use Rattle.row_place.specs.Places.{IsPlacement};
ghost use Rattle.channel_route.specs.declared.routing.Routing.{Routing};
ghost use Rattle.channel_route.specs.Routing.{IsLegal};
ghost use Rattle.channel_route.specs.Wiring.{IsWiring};
ghost use Rattle.row_compact.specs.Allowed.{AreAllowed, stretches_of};
ghost use Rattle.scmos_rules.specs.declared.rules.Deck.TheVariants.{Plain};
ghost use Rattle.cell_draw.specs.Drawings.{drawn_of};
ghost use Rattle.cell_draw.specs.Frame.{frame_of};
ghost use Rattle.cell_draw.specs.Layouts.{width_of};
ghost use Rattle.cell_draw.specs.Sound.{IsSoundRow};
ghost use Rattle.lef_write.specs.Drawn.{AreAllMetal, AreOfNet, HasPort, HasPorts, HasTrunkPorts, IsSized, ports_in};

/// In the drawing of a routed row each pin has exactly one port, on which the label of its name is; every
/// cell of it is in the pin's net; the obstructions are exactly the rest of its metal; and the macro's size
/// is that of its metal1. It does nothing: its contract is the law.
pub fn drawn_ports()
    ensures ports { (names : List (List ℕ)) (pins : Pins) (p : Placement) (r : Routing) (xs : List ℕ) (height n : ℕ)
        → IsPlacement p → IsLegal p pins r → AreAllowed p pins (stretches_of r.trunks) xs → pins.pins ≤ length names
        → n < pins.pins
        → HasPort names (ports_in pins r (drawn_of names pins p r xs height)) (drawn_of names pins p r xs height) n }
    ensures nets { (names : List (List ℕ)) (pins : Pins) (p : Placement) (r : Routing) (xs : List ℕ) (height n : ℕ)
        → IsPlacement p → IsSoundRow names pins p.row → IsLegal p pins r → AreAllowed p pins (stretches_of r.trunks) xs
        → ArePins (length names) pins → n < pins.pins
        → AreOfNet Plain names (ports_in pins r (drawn_of names pins p r xs height))
        (drawn_of names pins p r xs height) n }
    ensures rest { (names : List (List ℕ)) (pins : Pins) (p : Placement) (r : Routing) (xs : List ℕ) (height : ℕ)
        → AreAllMetal (ports_in pins r (drawn_of names pins p r xs height))
        (drawn_of names pins p r xs height).shapes.rects }
    ensures size { (names : List (List ℕ)) (pins : Pins) (p : Placement) (r : Routing) (xs : List ℕ) (height : ℕ)
        → IsPlacement p → IsLegal p pins r → AreAllowed p pins (stretches_of r.trunks) xs
        → IsSized (drawn_of names pins p r xs height) }
{}

/// In the drawing of a wired row each pin has one port or more, all of metal1, and the label of its name is
/// on the first; a pin that is no rail has one for each trunk of its net; every cell of each is in the pin's net;
/// the macro's size is that of its metal1. It does nothing: its contract is the law.
pub fn wired_ports()
    ensures ports { (names : List (List ℕ)) (pins : Pins) (p : Placement) (r : Routing) (xs : List ℕ) (height n : ℕ)
        → IsPlacement p → IsWiring p pins r → AreAllowed p pins (stretches_of r.trunks) xs → pins.pins ≤ length names
        → n < pins.pins
        → HasPorts names (ports_in pins r (drawn_of names pins p r xs height)) (drawn_of names pins p r xs height) n }
    ensures trunks { (names : List (List ℕ)) (pins : Pins) (p : Placement) (r : Routing) (xs : List ℕ) (height n : ℕ)
        → n < pins.pins
        → HasTrunkPorts pins (frame_of p.row r.tracks height (width_of p xs)) xs r.trunks
        (ports_in pins r (drawn_of names pins p r xs height)) (drawn_of names pins p r xs height) n }
    ensures nets { (names : List (List ℕ)) (pins : Pins) (p : Placement) (r : Routing) (xs : List ℕ) (height n : ℕ)
        → IsPlacement p → IsSoundRow names pins p.row → IsWiring p pins r → AreAllowed p pins (stretches_of r.trunks) xs
        → ArePins (length names) pins → n < pins.pins
        → AreOfNet Plain names (ports_in pins r (drawn_of names pins p r xs height))
        (drawn_of names pins p r xs height) n }
    ensures size { (names : List (List ℕ)) (pins : Pins) (p : Placement) (r : Routing) (xs : List ℕ) (height : ℕ)
        → IsPlacement p → IsWiring p pins r → AreAllowed p pins (stretches_of r.trunks) xs
        → IsSized (drawn_of names pins p r xs height) }
{}
