ghost use Rattle.std.specs.Prelude.{ℕ, ◌<◌, ◌≤◌, Bool, List, []};
ghost use Rattle.cell_num.specs.declared.net.NetNo.{NetNo};
ghost use Rattle.cell_num.specs.declared.net.Pins.{Pins};
ghost use Rattle.row_place.specs.declared.placement.Placement.{Placement};
ghost use Rattle.row_place.specs.Trunks.{HasPins};
ghost use Rattle.channel_route.specs.declared.routing.Trunk.{Trunk};
ghost use Rattle.track_ways.specs.declared.line.Line.{Line};
ghost use Rattle.track_ways.specs.Lines.{is_ahead, Sweeps};
ghost use Rattle.track_ways.specs.Channel.{AreLinesOf};
ghost use Rattle.dogleg_route.specs.declared.piece.PieceRouting.{PieceRouting};
ghost use Rattle.dogleg_route.specs.Routings.{ArePiecesLegal};
ghost use Rattle.piece_lines.specs.Lines.{PieceSweeps};
ghost use Rattle.piece_lines.specs.Within.{ArePiecesWithin, routing_on};

/// A legal routing by pieces is tracks line by line. It does nothing: its contract is the law.
pub fn pieces_by_lines()
    // a legal routing gives tracks through the lines, from any tracks before the first one
    ensures sweeps { (placement : Placement) (pins : Pins) (lines : List Line) (r : PieceRouting) (limit : ℕ)
        (track : NetNo → ℕ) → AreLinesOf placement lines → ArePiecesLegal placement pins r → r.tracks ≤ limit
        → PieceSweeps pins limit (is_ahead []) track lines }
    // tracks that never change are some of these
    ensures trunks { (pins : Pins) (limit : ℕ) (before : NetNo → Bool) (track : NetNo → ℕ) (lines : List Line)
        → Sweeps pins limit before track lines → PieceSweeps pins limit before track lines }
    // tracks through the lines give pieces on them
    ensures pieces { (placement : Placement) (pins : Pins) (lines : List Line) (limit : ℕ) (track : NetNo → ℕ)
        → AreLinesOf placement lines → HasPins placement pins
        → PieceSweeps pins limit (is_ahead []) track lines
        → (list : List Trunk) × ArePiecesWithin placement pins limit list }
    // which are a legal routing where no tracks go through on fewer
    ensures legal { (placement : Placement) (pins : Pins) (lines : List Line) (limit : ℕ) (list : List Trunk)
        → AreLinesOf placement lines → ArePiecesWithin placement pins limit list
        → ((fewer : ℕ) (track : NetNo → ℕ) → fewer < limit → PieceSweeps pins fewer (is_ahead []) track lines → ⊥)
        → ArePiecesLegal placement pins (routing_on limit list) }
    // and then no legal routing has fewer
    ensures fewest { (placement : Placement) (pins : Pins) (lines : List Line) (limit : ℕ)
        → AreLinesOf placement lines
        → ((fewer : ℕ) (track : NetNo → ℕ) → fewer < limit → PieceSweeps pins fewer (is_ahead []) track lines → ⊥)
        → (r : PieceRouting) → ArePiecesLegal placement pins r → limit ≤ r.tracks }
{}
