ghost use Rattle.std.specs.Prelude.{◌≡◌, ◌≤◌, ◌<◌, ◌+◌, ◌∷◌, ◌++◌, OnErr, OnOk, decimal, length};
ghost use Rattle.bound_log.specs.Text.{column_line, counts_text, end_text, flip_text, gaps_line, head_lines};
ghost use Rattle.bound_log.specs.Text.{lemma_line, more_counts_text, rule_text, side_text, state_text};

use crate::out::Out;
use crate::{Lemma, LogStep, Rule};
use cell_num::{Bytes, Name, NetNo, NoMemory};
use itoa::Buffer;
use row_state::{Counts, Side, State};

// Most numbers of a log have one digit.
#[tactic(auto, using(std::proofs::lemmas::Fmt::decimal_digit))]
fn put_number<O: Out>(out: &mut O, number: u32) -> Result<(), NoMemory>
    ensures text { OnOk result (O.text out.new ≡ O.text out.old ++ decimal number) }
    ensures left { OnOk result (O.room out.old ≤ O.room out.new + length (decimal number)) }
    ensures full { OnErr result (O.room out.old < length (decimal number)) }
{
    if number < 10 {
        return out.put(&[b'0' + number as u8]);
    }
    out.put(Buffer::new().format(number).as_bytes())
}

fn rule_word(rule: Rule) -> &'static [u8]
    ensures { result.now ≡ rule_text rule }
{
    match rule {
        Rule::P => b"P",
        Rule::N => b"N",
        Rule::Branch => b"B",
    }
}

// A count after its comma.
#[tactic(auto, using(std::proofs::lemmas::Fmt::decimal_digit))]
fn put_next_count<O: Out>(out: &mut O, count: u32) -> Result<(), NoMemory>
    ensures text { OnOk result (O.text out.new ≡ O.text out.old ++ (44 ∷ decimal count)) }
    ensures left { OnOk result (O.room out.old ≤ O.room out.new + (1 + length (decimal count))) }
    ensures full { OnErr result (O.room out.old < 1 + length (decimal count)) }
{
    if count < 10 {
        return out.put(&[b',', b'0' + count as u8]);
    }
    out.put(b",")?;
    put_number(out, count)
}

fn put_more_counts<O: Out>(out: &mut O, counts: &[u32]) -> Result<(), NoMemory>
    ensures text { OnOk result (O.text out.new ≡ O.text out.old ++ more_counts_text counts.now) }
    ensures left { OnOk result (O.room out.old ≤ O.room out.new + length (more_counts_text counts.now)) }
    ensures full { OnErr result (O.room out.old < length (more_counts_text counts.now)) }
{
    for count in counts {
        put_next_count(out, *count)?;
    }
    Ok(())
}

#[tactic(auto, using(crate::proofs::Texts::counts_apart))]
fn put_counts<O: Out>(out: &mut O, counts: &Counts) -> Result<(), NoMemory>
    ensures text { OnOk result (O.text out.new ≡ O.text out.old ++ counts_text counts.now) }
    ensures left { OnOk result (O.room out.old ≤ O.room out.new + length (counts_text counts.now)) }
    ensures full { OnErr result (O.room out.old < length (counts_text counts.now)) }
{
    let [first, rest @ ..] = counts.as_slice() else {
        return out.put(b"-");
    };
    put_number(out, *first)?;
    put_more_counts(out, rest)?;
    Ok(())
}

fn put_end<O: Out>(out: &mut O, end: &Option<NetNo>) -> Result<(), NoMemory>
    ensures text { OnOk result (O.text out.new ≡ O.text out.old ++ end_text end.now) }
    ensures left { OnOk result (O.room out.old ≤ O.room out.new + length (end_text end.now)) }
    ensures full { OnErr result (O.room out.old < length (end_text end.now)) }
{
    match end {
        Some(net) => put_number(out, net.0),
        None => out.put(b"-"),
    }
}

pub(crate) fn put_state_to<O: Out>(out: &mut O, state: &State) -> Result<(), NoMemory>
    ensures text { OnOk result (O.text out.new ≡ O.text out.old ++ state_text state.now) }
    ensures left { OnOk result (O.room out.old ≤ O.room out.new + length (state_text state.now)) }
    ensures full { OnErr result (O.room out.old < length (state_text state.now)) }
{
    put_counts(out, &state.p_left)?;
    out.put(b" ")?;
    put_counts(out, &state.n_left)?;
    out.put(b" ")?;
    put_end(out, &state.p_end)?;
    out.put(b" ")?;
    put_end(out, &state.n_end)?;
    Ok(())
}

/// Writes the four words of a state: the counts left of each row, and the open end of each.
pub fn put_state(out: &mut Bytes, state: &State) -> Result<(), NoMemory>
    ensures { OnOk result (out.new ≡ out.old ++ state_text state.now) }
{
    put_state_to(out, state)
}

pub(crate) fn put_lemma<O: Out>(out: &mut O, lemma: &Lemma) -> Result<(), NoMemory>
    ensures text { OnOk result (O.text out.new ≡ O.text out.old ++ lemma_line lemma.now) }
    ensures full { OnErr result (O.room out.old < length (lemma_line lemma.now)) }
{
    out.put(b"lemma ")?;
    put_number(out, lemma.bound)?;
    out.put(b" ")?;
    out.put(rule_word(lemma.rule))?;
    out.put(b" ")?;
    put_state_to(out, &lemma.state)?;
    out.put(b"\n")?;
    Ok(())
}

fn flip_word(flipped: bool) -> &'static [u8]
    ensures { result.now ≡ flip_text flipped }
{
    if flipped { b"1" } else { b"0" }
}

fn put_side<O: Out>(out: &mut O, side: &Option<Side>) -> Result<(), NoMemory>
    ensures text { OnOk result (O.text out.new ≡ O.text out.old ++ side_text side.now) }
    ensures left { OnOk result (O.room out.old ≤ O.room out.new + length (side_text side.now)) }
    ensures full { OnErr result (O.room out.old < length (side_text side.now)) }
{
    let Some(side) = side else {
        return out.put(b"- 0");
    };
    put_number(out, side.kind)?;
    out.put(b" ")?;
    out.put(flip_word(side.flipped))?;
    Ok(())
}

pub(crate) fn put_column<O: Out>(out: &mut O, listed: &LogStep) -> Result<(), NoMemory>
    ensures text { OnOk result (O.text out.new ≡ O.text out.old ++ column_line listed.now) }
    ensures full { OnErr result (O.room out.old < length (column_line listed.now)) }
{
    out.put(b"column ")?;
    put_number(out, listed.gate.0)?;
    out.put(b" ")?;
    put_side(out, &listed.step.p)?;
    out.put(b" ")?;
    put_side(out, &listed.step.n)?;
    out.put(b"\n")?;
    Ok(())
}

pub(crate) fn put_head<O: Out>(out: &mut O, version: u32, name: &Name) -> Result<(), NoMemory>
    ensures text { OnOk result (O.text out.new ≡ O.text out.old ++ head_lines version name.now) }
    ensures full { OnErr result (O.room out.old < length (head_lines version name.now)) }
{
    out.put(b"cellgen-log ")?;
    put_number(out, version)?;
    out.put(b"\n")?;
    out.put(b"cell ")?;
    out.put(name.as_slice())?;
    out.put(b"\n")?;
    Ok(())
}

pub(crate) fn put_gaps<O: Out>(out: &mut O, gaps: u32) -> Result<(), NoMemory>
    ensures text { OnOk result (O.text out.new ≡ O.text out.old ++ gaps_line gaps) }
    ensures full { OnErr result (O.room out.old < length (gaps_line gaps)) }
{
    out.put(b"gaps ")?;
    put_number(out, gaps)?;
    out.put(b"\n")?;
    Ok(())
}
