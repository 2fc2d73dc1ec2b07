ghost use Rattle.std.specs.Prelude.{◌≡◌, option_map};
ghost use Rattle.call_words.specs.Asked.{texts};
ghost use Rattle.call_words.specs.Words.{shown, checking_of, checking_low_of, checking_by, checked_of, check_of};

use crate::cell::cell_of;
use crate::evidence::{Evidence, evidence_of};
use crate::form::Form;

// A file of evidence that is checked.
fn checking_of<'a>(
    evidence: Evidence,
    tech: &'a str,
    spice: &'a str,
    cell: &'a str,
    file: &'a str,
) -> Option<Form<'a>>
    ensures { option_map shown result ≡ checking_of evidence tech.now spice.now cell.now file.now }
{
    if file.is_empty() {
        return None;
    }
    let cell = cell_of(tech, spice, cell)?;
    Some(Form::Check {
        cell,
        file,
        by: evidence,
    })
}

// A certificate of tracks that is checked.
fn checking_low_of<'a>(
    tech: &'a str,
    spice: &'a str,
    cell: &'a str,
    file: &'a str,
) -> Option<Form<'a>>
    ensures { option_map shown result ≡ checking_low_of tech.now spice.now cell.now file.now }
{
    if file.is_empty() {
        return None;
    }
    let cell = cell_of(tech, spice, cell)?;
    Some(Form::CheckLow { cell, file })
}

// A file of evidence that is checked, by the words after its name.
fn checking_by<'a>(
    more: &'a [String],
    tech: &'a str,
    spice: &'a str,
    cell: &'a str,
    file: &'a str,
) -> Option<Form<'a>>
    ensures { option_map shown result ≡ checking_by (texts more.now) tech.now spice.now cell.now file.now }
{
    let evidence = evidence_of(more)?;
    checking_of(evidence, tech, spice, cell, file)
}

// A file that is checked, by the words after its name.
fn checked_of<'a>(
    more: &'a [String],
    tech: &'a str,
    spice: &'a str,
    cell: &'a str,
    file: &'a str,
) -> Option<Form<'a>>
    ensures { option_map shown result ≡ checked_of (texts more.now) tech.now spice.now cell.now file.now }
{
    match more {
        [word] if word.as_str() == "--low" => checking_low_of(tech, spice, cell, file),
        _ => checking_by(more, tech, spice, cell, file),
    }
}

/// The form of the words after `check`.
pub(crate) fn check_of(words: &[String]) -> Option<Form<'_>>
    ensures { option_map shown result ≡ check_of (texts words.now) }
{
    let [tech, spice, cell, file, more @ ..] = words else {
        return None;
    };
    checked_of(
        more,
        tech.as_str(),
        spice.as_str(),
        cell.as_str(),
        file.as_str(),
    )
}
