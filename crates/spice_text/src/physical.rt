ghost use Rattle.std.specs.Prelude.{◌≡◌, ◌≤◌, ◌<◌, ◌+◌, [], ◌∷◌, length, position, ◌==◌};
ghost use Rattle.spice_text.specs.Physical.{physical};
ghost use Rattle.spice_text.specs.Reader.{until_end, end_of};

fn find_feed(bytes: &[u8]) -> Option<usize>
    ensures { result ≡ position (λ b. b == 10) bytes.now }
{
    bytes.iter().position(|b| *b == b'\n')
}

#[tactic(auto, using(crate::proofs::Ends::at_found, crate::proofs::Ends::at_none, crate::proofs::Ends::until_end_le))]
fn find_end(bytes: &[u8]) -> usize
    ensures is { result ≡ until_end bytes.now }
    ensures within { result ≤ length bytes.now }
{
    match find_feed(bytes) {
        Some(at) => at,
        None => bytes.len(),
    }
}

// where a line ends whose line feed stands at a place
#[tactic(auto, using(crate::proofs::Ends::end_zero, crate::proofs::Ends::end_return, crate::proofs::Ends::end_plain))]
fn before_return(bytes: &[u8], end: usize) -> usize
    requires end { end ≡ until_end bytes.now }
    requires within { end < length bytes.now }
    ensures is { result ≡ end_of bytes.now }
    ensures within { result ≤ end }
{
    if end == 0 {
        return 0;
    }
    let last = bytes[end - 1];
    if last == b'\r' { end - 1 } else { end }
}

/// The first physical line of a text, and what follows it.
#[tactic(auto, using(crate::proofs::Ends::line_rules))]
pub fn first_line(bytes: &[u8]) -> (&[u8], &[u8])
    requires { 0 < length bytes.now }
    ensures line { physical bytes.now ≡ result.0.now ∷ physical result.1.now }
    ensures less { length result.1.now < length bytes.now }
{
    let end = find_end(bytes);
    if end == bytes.len() {
        (bytes, &[])
    } else {
        (&bytes[..before_return(bytes, end)], &bytes[end + 1..])
    }
}
