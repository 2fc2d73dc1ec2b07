ghost use Rattle.std.specs.Prelude.{◌≡◌, ◌≤◌, ◌+◌, true, length};
ghost use Rattle.lef_read.specs.Tokens.{is_white, ends_word, line_behind, tokens_from};
ghost use Rattle.lef_read.specs.Statements.{begins_token, line_at, passes, until_quote, word_length};

fn is_white(byte: u8) -> bool
    ensures { result ≡ is_white byte }
{
    byte == b' ' || byte == b'\n' || byte == b'\t' || byte == b'\r' || byte == 0x0b || byte == 0x0c
}

fn ends_word(byte: u8) -> bool
    ensures { result ≡ ends_word byte }
{
    is_white(byte) || byte == b';' || byte == b'"' || byte == b'#'
}

fn line_behind(line: u32, byte: u8) -> u32
    requires { line ≤ 2000000000 }
    ensures { result ≡ line_behind line byte }
{
    if byte == b'\n' { line + 1 } else { line }
}

// Whether a comment goes on after a byte between two tokens; None where a token begins.
fn passes(comment: bool, byte: u8) -> Option<bool>
    ensures { result ≡ passes comment byte }
{
    if comment {
        return Some(byte != b'\n');
    }
    if byte == b'#' {
        return Some(true);
    }
    if is_white(byte) {
        return Some(false);
    }
    None
}

/// The bytes after leading white space and comments, and their line.
#[tactic(auto, using(crate::proofs::Skipping::skip_rules))]
pub fn skip(bytes: &[u8], line: u32) -> (&[u8], u32)
    requires { line + length bytes.now ≤ 2000000000 }
    ensures tokens { tokens_from result.1 result.0.now ≡ tokens_from line bytes.now }
    ensures begins { begins_token result.0.now ≡ true }
    ensures few { result.1 + length result.0.now ≤ line + length bytes.now }
{
    let mut number = line;
    let mut comment = false;
    for at in 0..bytes.len() {
        let Some(goes_on) = passes(comment, bytes[at]) else {
            return (&bytes[at..], number);
        };
        comment = goes_on;
        number = line_behind(number, bytes[at]);
    }
    (&[], number)
}

/// How many bytes the word at the start has.
pub fn word_length(bytes: &[u8]) -> usize
    ensures is { result ≡ word_length bytes.now }
    ensures within { result ≤ length bytes.now }
{
    for at in 0..bytes.len() {
        if ends_word(bytes[at]) {
            return at;
        }
    }
    bytes.len()
}

/// The number of bytes before the first quote, or of all bytes where there is none.
pub fn until_quote(bytes: &[u8]) -> usize
    ensures is { result ≡ until_quote bytes.now }
    ensures within { result ≤ length bytes.now }
{
    for at in 0..bytes.len() {
        if bytes[at] == b'"' {
            return at;
        }
    }
    bytes.len()
}

/// The line after a text that begins on a line.
pub fn line_at(line: u32, bytes: &[u8]) -> u32
    requires { line + length bytes.now ≤ 2000000000 }
    ensures is { result ≡ line_at line bytes.now }
    ensures within { result ≤ line + length bytes.now }
{
    let mut number = line;
    for byte in bytes {
        number = line_behind(number, *byte);
    }
    number
}
