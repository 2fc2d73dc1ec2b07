ghost use Rattle.std.specs.Prelude.{◌≡◌, ◌++◌, OnOk, option_map};
ghost use Rattle.call_words.specs.Asked.{texts};
ghost use Rattle.call_words.specs.Words.{shown, extracting_of, extract_of, bench_of, row_of};
ghost use Rattle.call_words.specs.Words.{agree_of, asked, usage_text};

use crate::cell::{CellAsked, tech_of};
use crate::cell_form::{make_of, plan_of};
use crate::check_form::check_of;
use crate::count::CellCount;
use crate::evidence::Evidence;
use crate::row::{self, RowAsked, choice_of};
use cell_inputs::Style;
use cell_num::{Bytes, NoMemory, is_cell};
use scmos_rules::Deck;

/// What a call of the program asks for.
#[derive(Drop)]
pub enum Form<'a> {
    /// The first least row of a cell, with its evidence.
    Plan {
        cell: CellAsked<'a>,
        evidence: Evidence,
    },
    /// The drawing of a cell in a style, with its evidence, in files whose names begin so.
    Make {
        cell: CellAsked<'a>,
        out: &'a str,
        style: Style,
        evidence: Evidence,
    },
    /// The drawing of the row that a file of evidence lists, in a style, in files whose names begin so.
    MakeFrom {
        cell: CellAsked<'a>,
        out: &'a str,
        style: Style,
        file: &'a str,
        evidence: Evidence,
    },
    /// The drawing of the lowest of a cell's least rows in a style, with evidence of its gaps and of its tracks, in
    /// files whose names begin so.
    MakeLow {
        cell: CellAsked<'a>,
        out: &'a str,
        style: Style,
        evidence: Evidence,
    },
    /// Whether a file holds evidence that certifies a row of a cell.
    Check {
        cell: CellAsked<'a>,
        file: &'a str,
        by: Evidence,
    },
    /// Whether a file holds a certificate of the fewest tracks of a cell's rows.
    CheckLow {
        cell: CellAsked<'a>,
        file: &'a str,
    },
    /// The netlist of a cell of a GDSII file, checked by a deck of rules; no technology's file is the plain technology.
    Extract {
        tech: Option<&'a str>,
        gds: &'a str,
        cell: &'a str,
        rules: Deck,
    },
    /// What making that many generated cells results in.
    Bench {
        number: CellCount,
    },
    /// The drawings of cells side by side, in a file whose name begins so.
    Row {
        row: RowAsked<'a>,
        out: &'a str,
    },
    /// Whether the macro of an abstract agrees with a cell of a GDSII file.
    Agree {
        tech: Option<&'a str>,
        gds: &'a str,
        lef: &'a str,
        cell: &'a str,
    },
}

// A layout that is checked by these rules.
fn extracting_of<'a>(rules: Deck, tech: &'a str, gds: &'a str, cell: &'a str) -> Option<Form<'a>>
    ensures { option_map shown result ≡ extracting_of rules tech.now gds.now cell.now }
{
    if !tech.is_empty() && !gds.is_empty() && is_cell(cell.as_bytes()) {
        Some(Form::Extract {
            tech: tech_of(tech),
            gds,
            cell,
            rules,
        })
    } else {
        None
    }
}

// The form of the words after `extract`.
fn extract_of(words: &[String]) -> Option<Form<'_>>
    ensures { option_map shown result ≡ extract_of (texts words.now) }
{
    match words {
        [tech, gds, cell] => extracting_of(Deck::Plain, tech.as_str(), gds.as_str(), cell.as_str()),
        [tech, gds, cell, word] if word.as_str() == "--taps" => {
            extracting_of(Deck::Taps, tech.as_str(), gds.as_str(), cell.as_str())
        }
        _ => None,
    }
}

// The form of the words after `bench`.
fn bench_of(words: &[String]) -> Option<Form<'_>>
    ensures { option_map shown result ≡ bench_of (texts words.now) }
{
    let [word] = words else {
        return None;
    };
    match CellCount::spelled(word.as_str()) {
        Some(number) => Some(Form::Bench { number }),
        None => None,
    }
}

// The form of the words after `row`.
fn row_of(words: &[String]) -> Option<Form<'_>>
    ensures { option_map shown result ≡ row_of (texts words.now) }
{
    let [tech, spice, out, top, more @ ..] = words else {
        return None;
    };
    if out.is_empty() {
        return None;
    }
    let (choice, cells) = choice_of(more);
    match row::row_of(choice, tech.as_str(), spice.as_str(), top.as_str(), cells) {
        Some(row) => Some(Form::Row {
            row,
            out: out.as_str(),
        }),
        None => None,
    }
}

// The form of the words after `agree`.
fn agree_of(words: &[String]) -> Option<Form<'_>>
    ensures { option_map shown result ≡ agree_of (texts words.now) }
{
    let [tech, gds, lef, cell] = words else {
        return None;
    };
    if !tech.is_empty() && !gds.is_empty() && !lef.is_empty() && is_cell(cell.as_bytes()) {
        Some(Form::Agree {
            tech: tech_of(tech.as_str()),
            gds: gds.as_str(),
            lef: lef.as_str(),
            cell: cell.as_str(),
        })
    } else {
        None
    }
}

/// The form of the words, by the command first, or None where they have none of the listed forms.
pub fn form_of(words: &[String]) -> Option<Form<'_>>
    ensures { option_map shown result ≡ asked words.now }
{
    let (command, rest) = words.split_first()?;
    match command.as_str() {
        "plan" => plan_of(rest),
        "make" => make_of(rest),
        "check" => check_of(rest),
        "extract" => extract_of(rest),
        "bench" => bench_of(rest),
        "row" => row_of(rest),
        "agree" => agree_of(rest),
        _ => None,
    }
}

/// Adds a line for each form.
pub fn put_usage(out: &mut Bytes) -> Result<(), NoMemory>
    ensures { OnOk result (out.new ≡ out.old ++ usage_text) }
{
    out.extend(
        b"plan TECH SPICE CELL
make TECH SPICE CELL OUT
check TECH SPICE CELL LOG
extract TECH GDS CELL
bench NUMBER
make TECH SPICE CELL OUT --dogleg
make TECH SPICE CELL OUT --taps
make TECH SPICE CELL OUT --dogleg --taps
extract TECH GDS CELL --taps
row TECH SPICE OUT TOP CELL CELL ..
agree TECH GDS LEF CELL
plan TECH SPICE CELL --trails
check TECH SPICE CELL FILE --trails
make TECH SPICE CELL OUT [--dogleg] [--taps] --trails
make TECH SPICE CELL OUT [--dogleg] [--taps] [--trails] --from FILE
make TECH SPICE CELL OUT [--dogleg] [--taps] --low [--trails]
check TECH SPICE CELL FILE --low
row TECH SPICE OUT TOP CELL CELL .. --low
",
    )
}
