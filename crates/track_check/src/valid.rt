// Whether a lemma is on a valid state and on tracks of nets that are open there.
ghost use Rattle.std.specs.Prelude.{◌≡◌, ◌↔◌, ◌&&◌, ◌||◌, ◌==◌, not, true, All, IsTrue};
ghost use Rattle.std.specs.List.{list_all};
ghost use Rattle.row_state.specs.declared.kind.Kinds.{Kinds as KindsOf};
ghost use Rattle.row_state.specs.declared.state.State.{State as StateOf};
ghost use Rattle.row_state.specs.Start.{IsState, start_of};
ghost use Rattle.track_ways.specs.States.{is_open_at};
ghost use Rattle.track_ways.specs.declared.track.NetTrack.{NetTrack as NetTrackOf};
ghost use Rattle.track_ways.specs.Tracks.{IsSingle};
ghost use Rattle.track_ways.specs.Certificate.{IsValid};
ghost use Rattle.track_check.specs.Touches.{AreNetsOf, AreTouches};
ghost use Rattle.track_check.specs.Steps.{agrees};

use crate::{StateNets, ends_fit, state_nets};
use cell_num::Pins;
use row_state::Kinds;
use row_trails::NETS;
use track_ways::{NetTrack, TrackLemma};

fn are_open(pins: &Pins, nets: &StateNets, tracks: &[NetTrack]) -> bool
    ensures { (k : KindsOf) (s : StateOf) → AreNetsOf k s nets.now
        → (IsTrue result ↔ All (λ (t : NetTrackOf). is_open_at pins.now k s t.net ≡ true) tracks.now) }
{
    for t in tracks {
        if !nets.is_open(pins, t.net) {
            return false;
        }
    }
    true
}

fn agrees(t: &NetTrack, tracks: &[NetTrack]) -> bool
    ensures { result ≡ list_all (agrees t.now) tracks.now }
{
    tracks
        .iter()
        .all(|u| t.net.0 != u.net.0 || t.track == u.track)
}

fn all_agree(tracks: &[NetTrack]) -> bool
    ensures { result ≡ list_all (λ t. list_all (agrees t) tracks.now) tracks.now }
{
    tracks.iter().all(|t| agrees(t, tracks))
}

fn are_single(tracks: &[NetTrack]) -> bool
    ensures { IsTrue result ↔ IsSingle tracks.now }
{
    all_agree(tracks)
}

/// Whether the lemma, of a valid state, is valid: its open ends are of fingers that were used, and it lists one track
/// for each of some nets that are open at the state. `all` is how often the start state touches each net, `here` how
/// often the lemma's does.
pub(crate) fn is_valid(
    pins: &Pins,
    kinds: &Kinds,
    all: &[u32; NETS],
    here: &[u32; NETS],
    lemma: &TrackLemma,
) -> bool
    requires state { IsState kinds.now lemma.now.state }
    requires all { AreTouches kinds.now (start_of kinds.now) all.now }
    requires here { AreTouches kinds.now lemma.now.state here.now }
    ensures { IsTrue result ↔ IsValid pins.now kinds.now lemma.now }
{
    if !ends_fit(all, here) {
        return false;
    }
    let nets = state_nets(all, here);
    let tracks = lemma.tracks.as_slice();
    if !are_open(pins, &nets, tracks) {
        return false;
    }
    are_single(tracks)
}
