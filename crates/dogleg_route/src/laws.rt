ghost use Rattle.std.specs.Prelude.{◌≡◌, ◌≤◌, ◌⊎◌, ℕ, List};
ghost use Rattle.cell_num.specs.declared.net.NetNo.{NetNo as Net};
ghost use Rattle.cell_num.specs.declared.net.Pins.{Pins as SomePins};
ghost use Rattle.row_place.specs.declared.placement.Placement.{Placement as APlacement};
ghost use Rattle.channel_route.specs.declared.routing.WireAbove.{WireAbove};
ghost use Rattle.channel_route.specs.Cycle.{HasNoCycle};
ghost use Rattle.channel_route.specs.Wiring.{IsWiring};
ghost use Rattle.dogleg_route.specs.declared.piece.PieceRouting.{PieceRouting as ARouting};
ghost use Rattle.dogleg_route.specs.PieceCycles.{BeginsFirst, HasNoPieceCycle};
ghost use Rattle.dogleg_route.specs.PieceTold.{IsPieceTold};
ghost use Rattle.dogleg_route.specs.Pieces.{IsPiece};
ghost use Rattle.dogleg_route.specs.Routings.{ArePiecesLegal, ArePiecesTight, as_routing};

/// Two pieces of one net are one, or have at most an end line in common. It does nothing: its contract is
/// the law.
pub fn pieces_apart()
    ensures { (p : APlacement) (pins : SomePins) (net : Net) (l r k s : ℕ)
        → IsPiece p pins net l r → IsPiece p pins net k s
        → ((l ≡ k) × (r ≡ s)) ⊎ ((r ≤ k) ⊎ (s ≤ l)) }
{}

/// A legal routing of pieces is a wiring. It does nothing: its contract is the law.
pub fn pieces_are_wired()
    ensures { (p : APlacement) (pins : SomePins) (r : ARouting)
        → ArePiecesLegal p pins r → IsWiring p pins (as_routing r) }
{}

/// A placement has one legal and tight routing of pieces at most. It does nothing: its contract is the law.
pub fn one_piece_routing()
    ensures { (p : APlacement) (pins : SomePins) (a b : ARouting)
        → ArePiecesLegal p pins a → ArePiecesTight p pins a
        → ArePiecesLegal p pins b → ArePiecesTight p pins b → a ≡ b }
{}

/// Where no nets are above each other in a cycle, no pieces do. It does nothing: its contract is the law.
pub fn no_piece_cycle()
    ensures { (p : APlacement) (pins : SomePins) → HasNoCycle p pins → HasNoPieceCycle p pins }
{}

/// At most one cycle of pieces is reported. It does nothing: its contract is the law.
pub fn one_piece_told()
    ensures { (p : APlacement) (pins : SomePins) (a b : List WireAbove)
        → IsPieceTold p pins a → BeginsFirst p pins a
        → IsPieceTold p pins b → BeginsFirst p pins b → a ≡ b }
{}
