// The heights of a cell.

ghost use Rattle.std.specs.Prelude.{◌≡◌, ◌≤◌, ◌+◌, ◌*◌, All};
ghost use Rattle.row_model.specs.Arrangement.{place};
ghost use Rattle.cell_draw.specs.Frame.{wider, height_of, channel_of, needed_of, frame_of, track_y, IsTooTall};
ghost use Rattle.cell_draw.specs.Small.{IsFingerWidth, HasWidths, IsSmallFrame};

use crate::{EDGE_SPACE, Frame, LEAST_CHANNEL, LEAST_ROW, ROW_EDGE, TRACK_PITCH};
use cell_num::Row;
use row_compact::SIDE_SPACE;
use row_model::{Column, Placed};
use row_place::Placement;

/// The greatest height of a cell that may be given, in grid units.
pub const MOST_HEIGHT: u32 = 4_000;

/// The most tracks of a cell.
pub const MOST_TRACKS: u32 = 1_000;

/// The greatest position of the last line of a cell, in grid units.
pub const MOST_X: u32 = 1_000_000;

/// No shape and no label is higher than this, in grid units.
pub const MOST_Y: u32 = 200_000;

/// The channel edges of the N and of the P row, in grid units.
#[derive(Clone, Copy, Debug, PartialEq, Eq)]
pub struct Edges {
    pub n: u32,
    pub p: u32,
}

fn wider(most: u32, placed: &Option<Placed>) -> u32
    requires width { IsFingerWidth placed.now }
    requires most { most ≤ 400 }
    ensures value { result ≡ wider most placed.now }
    ensures least { most ≤ result }
    ensures most { result ≤ 400 }
{
    match placed {
        Some(placed) => most.max(placed.finger.width),
        None => most,
    }
}

// The greatest finger width of a row, at least that of a pad.
#[tactic(auto, using(crate::proofs::Sizes::width_in))]
fn height_of(row: Row, columns: &[Column]) -> u32
    requires { All HasWidths columns.now }
    ensures value { result ≡ height_of row columns.now }
    ensures least { LEAST_ROW ≤ result }
    ensures most { result ≤ 400 }
{
    let mut most = LEAST_ROW;
    for column in columns {
        most = wider(most, &column.place(row));
    }
    most
}

// The height of a channel of `tracks` tracks, in grid units.
fn channel_of(tracks: u32) -> u32
    requires { tracks ≤ MOST_TRACKS }
    ensures value { result ≡ channel_of tracks }
    ensures most { result ≤ 16040 }
{
    LEAST_CHANNEL + TRACK_PITCH * tracks.saturating_sub(1)
}

/// The least height of a cell with `tracks` tracks, in grid units.
pub fn needed(columns: &[Column], tracks: u32) -> u32
    requires widths { All HasWidths columns.now }
    requires tracks { tracks ≤ MOST_TRACKS }
    ensures value { result ≡ needed_of columns.now tracks }
    ensures most { result ≤ 20000 }
{
    ROW_EDGE
        + height_of(Row::N, columns)
        + channel_of(tracks)
        + height_of(Row::P, columns)
        + ROW_EDGE
}

/// The heights of a cell, which are the least ones where no height is given. The channel takes what a
/// given height has to spare.
pub fn frame(columns: &[Column], tracks: u32, height: u32, width: u32) -> Frame
    requires widths { All HasWidths columns.now }
    requires tracks { tracks ≤ MOST_TRACKS }
    requires height { height ≤ MOST_HEIGHT }
    requires wide { 2 * SIDE_SPACE ≤ width }
    requires right { width ≤ MOST_X + SIDE_SPACE }
    ensures exact { result ≡ frame_of columns.now tracks height width }
    ensures small { IsSmallFrame result }
{
    let n_height = height_of(Row::N, columns);
    let p_height = height_of(Row::P, columns);
    let n_edge = ROW_EDGE + n_height;
    let spare = height.saturating_sub(needed(columns, tracks));
    Frame {
        n_height,
        p_height,
        n_edge,
        p_edge: n_edge + channel_of(tracks) + spare,
        width,
    }
}

/// The channel edges of a cell, whose height is 0 or enough.
pub fn channel_edges(placement: &Placement, tracks: u32, height: u32) -> Edges
    requires widths { All HasWidths placement.now.row }
    requires tracks { tracks ≤ MOST_TRACKS }
    requires height { height ≤ MOST_HEIGHT }
    requires enough { IsTooTall placement.now.row tracks height → ⊥ }
    ensures n { result.n ≡ (frame_of placement.now.row tracks height 16).n_edge }
    ensures p { result.p ≡ (frame_of placement.now.row tracks height 16).p_edge }
{
    let frame = frame(placement.row.as_slice(), tracks, height, 16);
    Edges {
        n: frame.n_edge,
        p: frame.p_edge,
    }
}

/// The height of a track.
pub fn track_y(frame: &Frame, track: u32) -> u32
    requires frame { IsSmallFrame frame.now }
    requires track { track ≤ MOST_TRACKS }
    ensures { result ≡ track_y frame.now track }
{
    frame.n_edge + EDGE_SPACE + TRACK_PITCH * track
}
