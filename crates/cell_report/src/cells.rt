ghost use Rattle.std.specs.Prelude.{◌≡◌, ◌++◌, OnOk};
ghost use Rattle.cell_report.specs.Cells.{fewest_by, fewest_dogleg_text, fewest_text, sizes_with, tall_text};

use cell_num::{Bytes, NoMemory, put_count, put_pair};
use track_log::Course;

/// Adds the line of the fewest tracks: no least row has a legal routing on fewer.
pub fn put_fewest(out: &mut Bytes, fewest: u32) -> Result<(), NoMemory>
    ensures { OnOk result (out.new ≡ out.old ++ fewest_text fewest) }
{
    put_count(out, b"fewest ", u64::from(fewest))
}

// The same of routings with doglegs.
fn put_fewest_dogleg(out: &mut Bytes, fewest: u32) -> Result<(), NoMemory>
    ensures { OnOk result (out.new ≡ out.old ++ fewest_dogleg_text fewest) }
{
    put_count(out, b"fewest-dogleg ", u64::from(fewest))
}

/// Adds the line of the fewest tracks of a certificate, where nets have this course.
pub(crate) fn put_fewest_by(out: &mut Bytes, course: Course, fewest: u32) -> Result<(), NoMemory>
    ensures { OnOk result (out.new ≡ out.old ++ fewest_by course fewest) }
{
    match course {
        Course::Straight => put_fewest(out, fewest),
        Course::Turning => put_fewest_dogleg(out, fewest),
    }
}

/// Adds the tracks of a drawn cell, the text of [`put_fewest`] or none, the cell's width and height in grid units.
pub fn put_sizes(
    out: &mut Bytes,
    tracks: u32,
    fewest: &[u8],
    width: u32,
    height: u32,
) -> Result<(), NoMemory>
    ensures { OnOk result (out.new ≡ out.old ++ sizes_with tracks fewest.now width height) }
{
    put_count(out, b"tracks ", u64::from(tracks))?;
    out.extend(fewest)?;
    put_pair(out, b"size ", width, b" ", height)
}

/// Adds the height that a cell needs and the given one, in grid units.
pub fn put_tall(out: &mut Bytes, needed: u32, given: u32) -> Result<(), NoMemory>
    ensures { OnOk result (out.new ≡ out.old ++ tall_text needed given) }
{
    put_count(out, b"needed ", u64::from(needed))?;
    put_count(out, b"given ", u64::from(given))
}
