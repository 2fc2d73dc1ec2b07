ghost use Rattle.std.specs.Prelude.{ℕ, ◌≡◌};
ghost use Rattle.cell_num.specs.declared.net.Pins.{Pins};
ghost use Rattle.row_place.specs.declared.placement.Placement.{Placement};
ghost use Rattle.channel_route.specs.declared.routing.Routing.{Routing};
ghost use Rattle.first_route.specs.First.{IsFirstRouting};

/// A placement has one first routing at most on some number of tracks. It does nothing: its contract is the law.
pub fn one_first()
    ensures { (placement : Placement) (pins : Pins) (count : ℕ) (a b : Routing)
        → IsFirstRouting placement pins count a → IsFirstRouting placement pins count b → a ≡ b }
{}
