ghost use Rattle.std.specs.Prelude.{ℕ, ◌≡◌, ◌<◌, ◌≤◌, ◌↔◌, List, All};
ghost use Rattle.cell_num.specs.declared.finger.Row.{Row};
ghost use Rattle.cell_num.specs.declared.net.NetNo.{NetNo};
ghost use Rattle.cell_num.specs.declared.net.Pins.{Pins};
ghost use Rattle.cell_num.specs.declared.finger.Fingers.{Fingers};
ghost use Rattle.row_model.specs.declared.column.Column.{Column};
ghost use Rattle.row_model.specs.Arrangement.{IsArrangement};
ghost use Rattle.row_model.specs.Gaps.{gaps_of};
ghost use Rattle.row_place.specs.Places.{placement_of};
ghost use Rattle.channel_route.specs.declared.routing.Routing.{Routing};
ghost use Rattle.channel_route.specs.Routing.{IsLegal};
ghost use Rattle.row_state.specs.declared.kind.Kinds.{Kinds};
ghost use Rattle.row_state.specs.declared.state.State.{State};
ghost use Rattle.row_state.specs.Start.{AreKinds, AreSomeKinds, start_of};
ghost use Rattle.track_ways.specs.declared.lemma.TrackLemma.{TrackLemma};
ghost use Rattle.track_ways.specs.Certificate.{AreJustified, Certifies, IsJustified, IsTrueOf, IsValid};
ghost use Rattle.track_ways.specs.Certificate.{AreJustifiedBy, CertifiesBy, IsJustifiedBy, IsTrueBy};
ghost use Rattle.track_ways.specs.Checked.{IsJustifiedListed, IsJustifiedListedBy};
ghost use Rattle.track_ways.specs.Fails.{FailsBy};

use crate::rule::TrackRule;
use row_state::RowBound;

/// Lemmas that are justified by a rule are true, so with a certificate the first state fails by it. It does nothing:
/// its contract is the law.
pub fn failures_by_lemmas<R: TrackRule, B: RowBound>(_bound: &B)
    ensures lemmas { (pins : Pins) (limit : ℕ) (k : Kinds) (lemmas : List TrackLemma) → AreSomeKinds k
        → AreJustifiedBy R.fits (B.value _bound.now) pins limit k lemmas → All (IsTrueBy R.fits pins limit k) lemmas }
    ensures fails { (pins : Pins) (limit : ℕ) (k : Kinds) (gaps : ℕ) (lemmas : List TrackLemma) (track : NetNo → ℕ)
        → AreSomeKinds k → CertifiesBy R.fits (B.value _bound.now) pins limit k gaps lemmas
        → FailsBy R.fits pins limit k (start_of k) track gaps }
{}

/// What a checker goes through by the lists of a rule decides whether a lemma is justified by it. It does nothing: its
/// contract is the law.
pub fn lemmas_checked_by<R: TrackRule>()
    ensures { (value : Row → State → Kinds → ℕ) (pins : Pins) (limit : ℕ) (k : Kinds)
        (earlier : List TrackLemma) (lemma : TrackLemma) → AreSomeKinds k → All (IsValid pins k) earlier
        → IsJustifiedBy R.fits value pins limit k earlier lemma
        ↔ IsJustifiedListedBy R.ways value pins limit k earlier lemma }
{}

/// Justified lemmas are true, so a certificate shows that each legal routing of each arrangement of the fingers with at
/// most that many gaps has more tracks than the limit. It does nothing: its contract is the law.
pub fn tracks_by_lemmas<B: RowBound>(_bound: &B)
    ensures lemmas { (pins : Pins) (limit : ℕ) (k : Kinds) (lemmas : List TrackLemma) → AreSomeKinds k
        → AreJustified (B.value _bound.now) pins limit k lemmas → All (IsTrueOf pins limit k) lemmas }
    ensures more { (pins : Pins) (f : Fingers) (k : Kinds) (limit gaps : ℕ) (lemmas : List TrackLemma)
        → AreKinds f k → AreSomeKinds k → Certifies (B.value _bound.now) pins limit k gaps lemmas
        → (row : List Column) (r : Routing) → IsArrangement row f → gaps_of row ≤ gaps
        → IsLegal (placement_of row) pins r → limit < r.tracks }
{}

/// What a checker goes through, lists alone, decides whether a lemma is justified. It does nothing: its contract is the
/// law.
pub fn lemmas_checked()
    ensures { (value : Row → State → Kinds → ℕ) (pins : Pins) (limit : ℕ) (k : Kinds)
        (earlier : List TrackLemma) (lemma : TrackLemma) → AreSomeKinds k → All (IsValid pins k) earlier
        → IsJustified value pins limit k earlier lemma ↔ IsJustifiedListed value pins limit k earlier lemma }
{}
