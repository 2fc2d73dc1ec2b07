ghost use Rattle.std.specs.Prelude.{◌≡◌, ◌<◌, ◌∷◌, ◌==◌, [], IfNone, IfSome, length, position};
ghost use Rattle.log_lines.specs.Lines.{behind, lines_in};

use crate::word::find_byte;

/// A line without its line feed, and what is after it.
#[derive(Clone, Copy)]
pub struct Line<'a> {
    pub line: &'a [u8],
    pub after: &'a [u8],
}

/// Where the first line ends.
pub fn find_feed(bytes: &[u8]) -> Option<usize>
    ensures { result ≡ position (λ b. b == 10) bytes.now }
{
    find_byte(bytes, b'\n')
}

/// The first line, if a line feed ends it.
#[tactic(auto, using(crate::proofs::Rules::first_line_rules))]
pub fn first_line(bytes: &[u8]) -> Option<Line<'_>>
    ensures none { IfNone result (lines_in bytes.now ≡ []) }
    ensures line { IfSome result (λ first. lines_in bytes.now ≡ first.line.now ∷ lines_in first.after.now) }
    ensures behind { IfSome result (λ first. behind bytes.now ≡ behind first.after.now) }
    ensures less { IfSome result (λ first. length first.after.now < length bytes.now) }
{
    let at = find_feed(bytes)?;
    Some(Line {
        line: &bytes[..at],
        after: &bytes[at + 1..],
    })
}
