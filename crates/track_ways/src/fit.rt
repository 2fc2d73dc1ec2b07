// Whether tracks go together at a line, and on its two sides.
ghost use Rattle.std.specs.Prelude.{◌≡◌, ◌&&◌, ◌||◌, [], ltb};
ghost use Rattle.std.specs.List.{list_all, list_any};
ghost use Rattle.track_ways.specs.Ways.{are_apart, go_together, is_listed, line_test, test_beside};

use crate::NetTrack;
use crate::held::is_net;
use crate::line::Line;
use cell_num::NetNo;

/// Whether one of the tracks is of the net.
pub fn is_listed(tracks: &[NetTrack], net: NetNo) -> bool
    ensures { result ≡ is_listed tracks.now net }
{
    tracks.iter().any(|t| t.net.0 == net.0)
}

/// Whether two tracks go together at the line: one net has one track, two nets have two, and where the first net has
/// the place in row P and the second the one in row N, the first track is above the second.
pub fn are_apart(line: &Line, t: &NetTrack, u: &NetTrack) -> bool
    ensures { result ≡ are_apart line.now t.now u.now }
{
    if t.net.0 == u.net.0 {
        t.track == u.track
    } else {
        t.track != u.track
            && (!(is_net(&line.p, t.net) && is_net(&line.n, u.net)) || u.track < t.track)
    }
}

fn are_all_apart(line: &Line, t: &NetTrack, tracks: &[NetTrack]) -> bool
    ensures { result ≡ list_all (are_apart line.now t.now) tracks.now }
{
    tracks.iter().all(|u| are_apart(line, t, u))
}

fn fits_with(limit: u32, line: &Line, t: &NetTrack, tracks: &[NetTrack]) -> bool
    ensures { result ≡ (ltb t.now.track limit && list_all (are_apart line.now t.now) tracks.now) }
{
    t.track < limit && are_all_apart(line, t, tracks)
}

fn fit_line(limit: u32, line: &Line, tracks: &[NetTrack]) -> bool
    ensures { result ≡ line_test limit line.now tracks.now }
{
    tracks.iter().all(|t| fits_with(limit, line, t, tracks))
}

/// Whether the tracks fit the line, with none on its other side.
pub fn do_fit(limit: u32, line: &Line, tracks: &[NetTrack]) -> bool
    ensures { result ≡ test_beside limit line.now [] tracks.now }
{
    fit_line(limit, line, tracks)
}

fn goes_along(line: &Line, t: &NetTrack, tracks: &[NetTrack]) -> bool
    ensures { result ≡ list_all (λ u. are_apart line.now t.now u && are_apart line.now u t.now) tracks.now }
{
    tracks
        .iter()
        .all(|u| are_apart(line, t, u) && are_apart(line, u, t))
}

fn go_together(line: &Line, t: &NetTrack, u: &NetTrack) -> bool
    ensures { result ≡ go_together line.now t.now u.now }
{
    t.net.0 == u.net.0 || (are_apart(line, t, u) && are_apart(line, u, t))
}

fn goes_beside(line: &Line, t: &NetTrack, others: &[NetTrack]) -> bool
    ensures { result ≡ list_all (go_together line.now t.now) others.now }
{
    others.iter().all(|u| go_together(line, t, u))
}

/// Whether the track of a net goes with the tracks on its side of the line and the others on the other side.
pub(crate) fn goes_with(line: &Line, t: &NetTrack, tracks: &[NetTrack], others: &[NetTrack]) -> bool
    ensures { result ≡ (list_all (λ u. are_apart line.now t.now u && are_apart line.now u t.now) tracks.now
        && list_all (go_together line.now t.now) others.now) }
{
    goes_along(line, t, tracks) && goes_beside(line, t, others)
}
