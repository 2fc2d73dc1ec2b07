// Lemmas on tracks, and their text. The inverter's input is net 0, its output net 1.
ghost use Rattle.std.specs.Prelude.{◌≤◌, length};
ghost use Rattle.cell_num.specs.Fingers.{AreFingers};

use crate::rows::{INVERTER, fingers};
use cell_num::{Fingers, NetNo, NoMemory, Pins, copy};
use row_state::{Component, Kinds, kinds, start};
use std::alloc::Global;
use std::test::Fail;
use track_check::{TracksRefused, check_tracks};
use track_log::{Course, read_tracks_by, write_tracks_by};
use track_ways::{NetTracks, TrackLemma, TrackLemmas};

const PINS: Pins = Pins {
    pins: 4,
    vdd: NetNo(2),
    gnd: NetNo(3),
};

// No row with at most `gaps` gaps has a legal routing.
fn of_start(alloc: Global, kinds: &Kinds, gaps: u32) -> Result<TrackLemma, NoMemory> {
    Ok(TrackLemma {
        state: start(alloc, kinds)?,
        gaps,
        tracks: NetTracks::new(alloc),
    })
}

// The answer for rows without gaps to lemmas on the start state, one for each number of gaps.
fn answer(alloc: Global, rows: &Fingers, limit: u32, gaps: &[u32]) -> Result<(), TracksRefused>
    requires { AreFingers rows.now }
{
    let kinds = kinds(alloc, rows)?;
    let mut lemmas = TrackLemmas::new(alloc);
    for gaps in gaps {
        lemmas.push(of_start(alloc, &kinds, *gaps)?)?;
    }
    check_tracks(alloc, &Component, &PINS, limit, &kinds, 0, &lemmas)
}

#[test]
fn needs_a_track_and_no_more(rt: HostRuntime) -> Result<(), Fail> {
    let alloc = rt.alloc();
    let rows = fingers(alloc, 4, &INVERTER)?;
    assert!(rt; answer(alloc, &rows, 0, &[0]) == Ok(()));
    assert!(rt; answer(alloc, &rows, 0, &[3, 0]) == Ok(()));
    assert!(rt; answer(alloc, &rows, 0, &[]) == Err(TracksRefused::NoStart));
    assert!(rt; answer(alloc, &rows, 1, &[0]) == Err(TracksRefused::Unjustified { at: 0 }));
    Ok(())
}

// Whether the text is that of a certificate of that course, and is written so again.
fn is_kept(alloc: Global, course: Course, text: &[u8]) -> Result<bool, Fail>
    requires { length text.now ≤ 1000 }
{
    let rows = fingers(alloc, 4, &INVERTER)?;
    let kinds = kinds(alloc, &rows)?;
    let name = copy(alloc, b"inv")?;
    match read_tracks_by(alloc, course, text, &name, &kinds) {
        Ok(certificate) => {
            Ok(write_tracks_by(alloc, course, &name, &certificate)?.as_slice() == text)
        }
        Err(_) => Ok(false),
    }
}

// One lemma speaks of all rows, and of no track at all; then the largest numbers, and lemmas on cycles.
const TEXTS: [(Course, &[u8]); 4] = [
    (
        Course::Straight,
        b"cellgen-tracks 1\ncell inv\ngaps 0\ntracks 1\nlemma 0 1 1 - - -\nend\n",
    ),
    (
        Course::Straight,
        b"cellgen-tracks 1\ncell inv\ngaps 63\ntracks 256\nlemma 3 0 0 1 1 0:0,1:255\nlemma 12 0 0 - 3 1:10\nend\n",
    ),
    (
        Course::Straight,
        b"cellgen-tracks 1\ncell inv\ngaps 0\ntracks 2\ncycle 0 1 1 - - -\ncycle 3 0 0 1 1 1>3,3>1\n\
          lemma 3 0 0 1 1 0:0\nend\n",
    ),
    (
        Course::Turning,
        b"cellgen-tracks 2\ncell inv\ngaps 0\ntracks 1\nlemma 0 1 1 - - -\nend\n",
    ),
];

#[test]
fn keeps_texts(rt: HostRuntime) -> Result<(), Fail> {
    for (course, text) in &TEXTS {
        assert!(rt; text.len() <= 1000 && is_kept(rt.alloc(), *course, text)?);
    }
    Ok(())
}
