ghost use Rattle.std.specs.Prelude.{◌≡◌, ◌≤◌, ◌++◌, OnOk};
ghost use Rattle.cell_report.specs.Logs.{unfinished_text, checked_text, low_checked_text};

use crate::cells::put_fewest_by;
use crate::row::put_row;
use cell_num::{Bytes, Name, NoMemory, put_count, put_text};
use track_log::Course;

/// Adds the lines of an unfinished search.
pub fn put_unfinished(out: &mut Bytes, proved: u32, lemmas: u64) -> Result<(), NoMemory>
    ensures { OnOk result (out.new ≡ out.old ++ unfinished_text proved lemmas) }
{
    put_count(out, b"proved ", u64::from(proved))?;
    put_count(out, b"lemmas ", lemmas)
}

/// Adds the lines of a checked log.
pub fn put_checked(
    out: &mut Bytes,
    name: &Name,
    columns: u64,
    gaps: u32,
    lemmas: u64,
) -> Result<(), NoMemory>
    requires { columns ≤ 1000000 }
    ensures { OnOk result (out.new ≡ out.old ++ checked_text name.now columns gaps lemmas) }
{
    put_row(out, name, columns, gaps)?;
    put_count(out, b"lemmas ", lemmas)
}

/// Adds the lines of a checked certificate of tracks: the cell, the gaps, and the fewest tracks of a row with at most
/// these gaps, where nets have this course.
pub fn put_low_checked(
    out: &mut Bytes,
    course: Course,
    name: &Name,
    gaps: u32,
    tracks: u32,
) -> Result<(), NoMemory>
    ensures { OnOk result (out.new ≡ out.old ++ low_checked_text course name.now gaps tracks) }
{
    put_text(out, b"cell ", name.as_slice())?;
    put_count(out, b"gaps ", u64::from(gaps))?;
    put_fewest_by(out, course, tracks)
}
