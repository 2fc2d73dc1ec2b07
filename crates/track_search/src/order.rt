// The tracks of a way in order of their nets, and the lemma that is kept of it.
ghost use Rattle.std.specs.Prelude.{◌≡◌, IfOk};
ghost use Rattle.std.specs.Option.{option_copied};
ghost use Rattle.track_search.specs.InOrder.{in_order, track_in};
ghost use Rattle.track_search.specs.Visit.{kept_at};

use cell_num::{List, NoMemory};
use row_state::State;
use std::alloc::{AllocError, Global};
use track_ways::{NetTrack, NetTracks, TrackLemma};

fn find_track(way: &[NetTrack], net: u32) -> Option<&NetTrack>
    ensures { option_copied result ≡ track_in way.now net }
{
    way.iter().find(|t| t.net.0 == net)
}

fn track_in(way: &[NetTrack], net: u32) -> Option<NetTrack>
    ensures { result ≡ track_in way.now net }
{
    find_track(way, net).copied()
}

/// The tracks of the nets below the number, in order of net, each net once.
pub(crate) fn in_order(
    alloc: Global,
    nets: u32,
    way: &[NetTrack],
) -> Result<Vec<NetTrack>, AllocError>
    ensures { IfOk result (λ tracks. tracks.items ≡ in_order nets way.now) }
{
    (0..nets)
        .filter_map(|net| track_in(way, net))
        .collect(alloc)
}

/// The same tracks again.
pub(crate) fn copied_way(alloc: Global, way: &NetTracks) -> Result<NetTracks, NoMemory>
    ensures { IfOk result (λ copy. copy ≡ way.now) }
{
    let mut copy = NetTracks::new(alloc);
    copy.extend(way.as_slice())?;
    Ok(copy)
}

fn ordered_way(alloc: Global, nets: u32, way: &NetTracks) -> Result<NetTracks, NoMemory>
    ensures { IfOk result (λ ordered. ordered ≡ in_order nets way.now) }
{
    Ok(List::from_vec(in_order(alloc, nets, way.as_slice())?))
}

/// The lemma that no completion of the state with at most that many gaps goes on from the way.
pub(crate) fn kept_at(
    alloc: Global,
    nets: u32,
    state: &State,
    gaps: u32,
    way: &NetTracks,
) -> Result<TrackLemma, NoMemory>
    ensures { IfOk result (λ lemma. lemma ≡ kept_at nets state.now gaps way.now) }
{
    let state = state.copied()?;
    let tracks = ordered_way(alloc, nets, way)?;
    Ok(TrackLemma {
        state,
        gaps,
        tracks,
    })
}
