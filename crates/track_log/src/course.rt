ghost use Rattle.std.specs.Prelude.{◌≡◌};
ghost use Rattle.track_log.specs.Reading.{course_of};
ghost use Rattle.track_log.specs.Text.{version_line_by};

use crate::Course;
use log_lines::{first_line, is_word};

/// The first line of a text, without its line feed.
pub(crate) fn version_line(course: Course) -> &'static [u8]
    ensures { result.now ≡ version_line_by course }
{
    match course {
        Course::Straight => b"cellgen-tracks 1",
        Course::Turning => b"cellgen-tracks 2",
    }
}

/// The course that the first line of a text names: turning where that is the line of turning nets.
pub fn course_of(bytes: &[u8]) -> Course
    ensures { result ≡ course_of bytes.now }
{
    let Some(first) = first_line(bytes) else {
        return Course::Straight;
    };
    if is_word(first.line, version_line(Course::Turning)) {
        Course::Turning
    } else {
        Course::Straight
    }
}
