ghost use Rattle.std.specs.Prelude.{◌≡◌};
ghost use Rattle.call_words.specs.Asked.{texts};
ghost use Rattle.call_words.specs.Options.{evidence_of, trails_of};

/// What is to prove that no row of a cell has fewer gaps.
#[derive(Clone, Copy, Debug, PartialEq, Eq)]
pub enum Evidence {
    /// The log of a search.
    Log,
    /// A certificate by trails.
    Trails,
}

// The evidence of the last words, none or `--trails`.
pub(crate) fn evidence_of(words: &[String]) -> Option<Evidence>
    ensures { result ≡ evidence_of (texts words.now) }
{
    match words {
        [] => Some(Evidence::Log),
        [word] if word.as_str() == "--trails" => Some(Evidence::Trails),
        _ => None,
    }
}

// The evidence, and the words after `--trails` where it comes first.
pub(crate) fn trails_of(words: &[String]) -> (Evidence, &[String])
    ensures evidence { result.0 ≡ (trails_of (texts words.now)).0 }
    ensures rest { texts result.1.now ≡ (trails_of (texts words.now)).1 }
{
    match words {
        [word, more @ ..] if word.as_str() == "--trails" => (Evidence::Trails, more),
        _ => (Evidence::Log, words),
    }
}
