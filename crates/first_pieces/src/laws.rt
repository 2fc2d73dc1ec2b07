ghost use Rattle.std.specs.Prelude.{ℕ, ◌≡◌};
ghost use Rattle.cell_num.specs.declared.net.Pins.{Pins};
ghost use Rattle.row_place.specs.declared.placement.Placement.{Placement};
ghost use Rattle.dogleg_route.specs.declared.piece.PieceRouting.{PieceRouting};
ghost use Rattle.first_pieces.specs.First.{IsFirstPieces};

/// A placement has one first routing by pieces at most on some number of tracks. It does nothing: its contract is the
/// law.
pub fn one_first_pieces()
    ensures { (placement : Placement) (pins : Pins) (count : ℕ) (a b : PieceRouting)
        → IsFirstPieces placement pins count a → IsFirstPieces placement pins count b → a ≡ b }
{}
