ghost use Rattle.std.specs.Prelude.{ℕ, ◌<◌, ◌≤◌, List};
ghost use Rattle.cell_num.specs.declared.net.Pins.{Pins};
ghost use Rattle.cell_num.specs.declared.finger.Fingers.{Fingers};
ghost use Rattle.row_model.specs.declared.column.Column.{Column};
ghost use Rattle.row_model.specs.Arrangement.{IsArrangement};
ghost use Rattle.row_model.specs.Gaps.{gaps_of};
ghost use Rattle.row_place.specs.Places.{placement_of};
ghost use Rattle.row_state.specs.declared.kind.Kinds.{Kinds};
ghost use Rattle.row_state.specs.Start.{AreKinds, AreSomeKinds};
ghost use Rattle.track_ways.specs.declared.lemma.TrackLemma.{TrackLemma};
ghost use Rattle.track_ways.specs.Certificate.{CertifiesBy};
ghost use Rattle.dogleg_route.specs.declared.piece.PieceRouting.{PieceRouting};
ghost use Rattle.dogleg_route.specs.Routings.{ArePiecesLegal};
ghost use Rattle.piece_lines.specs.Lines.{PieceLineFits};

use row_state::RowBound;

/// A certificate by lemmas that are justified where nets may turn shows that each legal routing by pieces of each
/// arrangement of the fingers with at most that many gaps has more tracks than the limit. It does nothing: its contract
/// is the law.
pub fn pieces_by_lemmas<B: RowBound>(_bound: &B)
    ensures { (pins : Pins) (f : Fingers) (k : Kinds) (limit gaps : ℕ) (lemmas : List TrackLemma)
        → AreKinds f k → AreSomeKinds k → CertifiesBy PieceLineFits (B.value _bound.now) pins limit k gaps lemmas
        → (row : List Column) (r : PieceRouting) → IsArrangement row f → gaps_of row ≤ gaps
        → ArePiecesLegal (placement_of row) pins r → limit < r.tracks }
{}
