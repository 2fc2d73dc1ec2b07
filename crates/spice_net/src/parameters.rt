// Parameters, the words `key=value`.
ghost use Rattle.std.specs.Prelude.{◌≡◌, codes, option_map, unwrap_or};
ghost use Rattle.std.specs.List.{list_all};
ghost use Rattle.spice_net.specs.Parameters.{is_parameter, value_in, value_of, last_there};

use cell_num::Name;

fn is_parameter(word: &[u8]) -> bool
    ensures { result ≡ is_parameter word.now }
{
    word.iter().any(|b| *b == b'=')
}

/// Whether each of the words has a `=`.
pub fn are_parameters(words: &[Name]) -> bool
    ensures { result ≡ list_all is_parameter words.now }
{
    words.iter().all(|word| is_parameter(word.as_slice()))
}

// a word's value for a key, or the one that was found before
fn value_or_before<'a>(key: &[u8], word: &'a [u8], before: Option<&'a [u8]>) -> Option<&'a [u8]>
    ensures { option_map (λ v. v.now) result ≡ last_there (value_in key.now word.now) (option_map (λ v.
        v.now) before.entry) }
{
    match word.strip_prefix(key) {
        Some(value) => Some(value),
        None => before,
    }
}

/// The value that counts for a key, which ends by its `=`: that of its last word.
#[tactic(auto, using(crate::proofs::Last::one_more))]
pub fn value_of<'a>(key: &[u8], words: &'a [Name]) -> Option<&'a [u8]>
    ensures { option_map (λ v. v.now) result ≡ value_of key.now words.now }
{
    let mut found = None;
    for word in words {
        found = value_or_before(key, word.as_slice(), found);
    }
    found
}

/// The value that counts for a key, or `1` where no word has the key.
pub fn value_or_one<'a>(key: &[u8], words: &'a [Name]) -> &'a [u8]
    ensures { result.now ≡ unwrap_or (value_of key.now words.now) (codes "1") }
{
    match value_of(key, words) {
        Some(value) => value,
        None => b"1",
    }
}
