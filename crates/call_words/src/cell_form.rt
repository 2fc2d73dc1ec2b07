ghost use Rattle.std.specs.Prelude.{◌≡◌, option_map};
ghost use Rattle.call_words.specs.Asked.{texts};
ghost use Rattle.call_words.specs.Words.{shown, plan_of, making_of, making_from_of, given_of};
ghost use Rattle.call_words.specs.Words.{drawing_of, evident_of, making_low_of, low_of, styled_of, make_of};

use crate::cell::cell_of;
use crate::evidence::{Evidence, evidence_of, trails_of};
use crate::form::Form;
use crate::style::style_of;
use cell_inputs::Style;

/// The form of the words after `plan`.
pub(crate) fn plan_of(words: &[String]) -> Option<Form<'_>>
    ensures { option_map shown result ≡ plan_of (texts words.now) }
{
    let [tech, spice, cell, more @ ..] = words else {
        return None;
    };
    let evidence = evidence_of(more)?;
    let cell = cell_of(tech.as_str(), spice.as_str(), cell.as_str())?;
    Some(Form::Plan { cell, evidence })
}

// A drawing in a style, with its evidence, in files whose names begin so.
fn making_of<'a>(
    style: Style,
    evidence: Evidence,
    tech: &'a str,
    spice: &'a str,
    cell: &'a str,
    out: &'a str,
) -> Option<Form<'a>>
    ensures { option_map shown result ≡ making_of style evidence tech.now spice.now cell.now out.now }
{
    if out.is_empty() {
        return None;
    }
    let cell = cell_of(tech, spice, cell)?;
    Some(Form::Make {
        cell,
        out,
        style,
        evidence,
    })
}

// A drawing of the row that a file of such evidence lists.
fn making_from_of<'a>(
    style: Style,
    evidence: Evidence,
    file: &'a str,
    tech: &'a str,
    spice: &'a str,
    cell: &'a str,
    out: &'a str,
) -> Option<Form<'a>>
    ensures { option_map shown result
        ≡ making_from_of style evidence file.now tech.now spice.now cell.now out.now }
{
    if out.is_empty() || file.is_empty() {
        return None;
    }
    let cell = cell_of(tech, spice, cell)?;
    Some(Form::MakeFrom {
        cell,
        out,
        style,
        file,
        evidence,
    })
}

// The drawing of a file's row, where the words are `--from` and the name of the file.
fn given_of<'a>(
    style: Style,
    evidence: Evidence,
    word: &str,
    rest: &'a [String],
    tech: &'a str,
    spice: &'a str,
    cell: &'a str,
    out: &'a str,
) -> Option<Form<'a>>
    ensures { option_map shown result
        ≡ given_of style evidence word.now (texts rest.now) tech.now spice.now cell.now out.now }
{
    let [file] = rest else {
        return None;
    };
    if word == "--from" {
        making_from_of(style, evidence, file.as_str(), tech, spice, cell, out)
    } else {
        None
    }
}

// The drawing of a row that is searched for, or with more words of a file's row.
fn drawing_of<'a>(
    style: Style,
    evidence: Evidence,
    more: &'a [String],
    tech: &'a str,
    spice: &'a str,
    cell: &'a str,
    out: &'a str,
) -> Option<Form<'a>>
    ensures { option_map shown result
        ≡ drawing_of style evidence (texts more.now) tech.now spice.now cell.now out.now }
{
    match more.split_first() {
        Some((word, rest)) => {
            given_of(style, evidence, word.as_str(), rest, tech, spice, cell, out)
        }
        None => making_of(style, evidence, tech, spice, cell, out),
    }
}

// The drawing of a row that is searched for or of a file's row, by the words after the style.
fn evident_of<'a>(
    style: Style,
    more: &'a [String],
    tech: &'a str,
    spice: &'a str,
    cell: &'a str,
    out: &'a str,
) -> Option<Form<'a>>
    ensures { option_map shown result ≡ evident_of style (texts more.now) tech.now spice.now cell.now out.now }
{
    let (evidence, more) = trails_of(more);
    drawing_of(style, evidence, more, tech, spice, cell, out)
}

// The drawing of the lowest of the least rows in a style, with its evidence, in files whose names begin so.
fn making_low_of<'a>(
    style: Style,
    evidence: Evidence,
    tech: &'a str,
    spice: &'a str,
    cell: &'a str,
    out: &'a str,
) -> Option<Form<'a>>
    ensures { option_map shown result
        ≡ making_low_of style evidence tech.now spice.now cell.now out.now }
{
    if out.is_empty() {
        return None;
    }
    let cell = cell_of(tech, spice, cell)?;
    Some(Form::MakeLow {
        cell,
        out,
        style,
        evidence,
    })
}

// The same by the words after `--low`.
fn low_of<'a>(
    style: Style,
    more: &'a [String],
    tech: &'a str,
    spice: &'a str,
    cell: &'a str,
    out: &'a str,
) -> Option<Form<'a>>
    ensures { option_map shown result ≡ low_of style (texts more.now) tech.now spice.now cell.now out.now }
{
    let evidence = evidence_of(more)?;
    making_low_of(style, evidence, tech, spice, cell, out)
}

// A drawing in a style, by the words after it.
fn styled_of<'a>(
    style: Style,
    more: &'a [String],
    tech: &'a str,
    spice: &'a str,
    cell: &'a str,
    out: &'a str,
) -> Option<Form<'a>>
    ensures { option_map shown result ≡ styled_of style (texts more.now) tech.now spice.now cell.now out.now }
{
    match more {
        [word, rest @ ..] if word.as_str() == "--low" => {
            low_of(style, rest, tech, spice, cell, out)
        }
        _ => evident_of(style, more, tech, spice, cell, out),
    }
}

/// The form of the words after `make`.
#[tactic(auto, using(crate::proofs::Makes::too_few))]
pub(crate) fn make_of(words: &[String]) -> Option<Form<'_>>
    ensures { option_map shown result ≡ make_of (texts words.now) }
{
    let [tech, spice, cell, out, more @ ..] = words else {
        return None;
    };
    let (style, more) = style_of(more);
    styled_of(
        style,
        more,
        tech.as_str(),
        spice.as_str(),
        cell.as_str(),
        out.as_str(),
    )
}
