ghost use Rattle.std.specs.Prelude.{◌≡◌, ◌≢◌, ◌≤◌, IfOk, IfErr, Ok, Err, length};
ghost use Rattle.log_lines.specs.Lines.{behind, lines_in};
ghost use Rattle.bound_log.specs.declared.fault.LogFault.TheVariants as fault;
ghost use Rattle.bound_log.specs.Fits.{IsLogName};
ghost use Rattle.trail_log.specs.declared.trails.TrailCertificate.{TrailCertificate as CertificateOf};
ghost use Rattle.trail_log.specs.Fits.{TrailsFit};
ghost use Rattle.trail_log.specs.Reading.{fill_at, lemmas_at, named_at, order_at, trails_of};
ghost use Rattle.trail_log.specs.Text.{trails_text};

use crate::line::{read_entry, read_fill, read_order};
use crate::{LemmaLines, NetList, TrailCertificate, TrailEntry};
use bound_log::{Best, Ending, LogFault, read_columns, read_end};
use cell_num::{MOST_BYTES, Name};
use log_lines::{first_line, is_named, is_word};
use row_state::Kinds;
use std::alloc::Global;

// The lemmas after the order, and after them the row that they certify, or `open`.
#[tactic(auto, using(crate::proofs::Rules::read_lemmas_rules))]
fn read_lemmas(
    alloc: Global,
    fill: NetList,
    order: NetList,
    kinds: &Kinds,
    bytes: &[u8],
) -> Result<TrailCertificate, LogFault>
    requires few { length bytes.now ≤ MOST_BYTES }
    ensures trails { IfOk result (λ trails.
        lemmas_at fill order kinds.now 5 (lines_in bytes.now) (behind bytes.now) ≡ Ok trails) }
    ensures fault { IfErr result (λ f. f ≢ fault.NoMemory →
        lemmas_at fill order kinds.now 5 (lines_in bytes.now) (behind bytes.now) ≡ Err f) }
{
    kinds.show_limits();
    let mut lemmas = LemmaLines::new(alloc);
    let mut rest = bytes;
    let mut number = 5;
    'lemmas: loop {
        let Some(first) = first_line(rest) else {
            return Err(LogFault::Cut);
        };
        match read_entry(alloc, kinds.nets, first.line)? {
            Some(TrailEntry::Lemma(lemma)) => lemmas.push(lemma)?,
            Some(TrailEntry::Ending(Ending::Gaps(gaps))) => {
                let steps = read_columns(alloc, kinds, first.after, number + 1)?;
                let best = Some(Best { gaps, steps });
                return Ok(TrailCertificate {
                    fill,
                    order,
                    lemmas,
                    best,
                });
            }
            Some(TrailEntry::Ending(Ending::Open)) => {
                read_end(first.after, number + 1)?;
                return Ok(TrailCertificate {
                    fill,
                    order,
                    lemmas,
                    best: None,
                });
            }
            None => return Err(LogFault::Line { line: number }),
        }
        rest = first.after;
        number += 1;
    }
}

// The line of the order, and the lemmas after it.
fn read_ordered(
    alloc: Global,
    fill: NetList,
    kinds: &Kinds,
    bytes: &[u8],
) -> Result<TrailCertificate, LogFault>
    requires few { length bytes.now ≤ MOST_BYTES }
    ensures trails { IfOk result (λ trails.
        order_at fill kinds.now (lines_in bytes.now) (behind bytes.now) ≡ Ok trails) }
    ensures fault { IfErr result (λ f. f ≢ fault.NoMemory →
        order_at fill kinds.now (lines_in bytes.now) (behind bytes.now) ≡ Err f) }
{
    kinds.show_limits();
    let Some(first) = first_line(bytes) else {
        return Err(LogFault::Cut);
    };
    let Some(order) = read_order(alloc, kinds.nets, first.line)? else {
        return Err(LogFault::Line { line: 4 });
    };
    let trails = read_lemmas(alloc, fill, order, kinds, first.after)?;
    Ok(trails)
}

// The line of the filled gates, and the order after it.
fn read_filled(alloc: Global, kinds: &Kinds, bytes: &[u8]) -> Result<TrailCertificate, LogFault>
    requires few { length bytes.now ≤ MOST_BYTES }
    ensures trails { IfOk result (λ trails.
        fill_at kinds.now (lines_in bytes.now) (behind bytes.now) ≡ Ok trails) }
    ensures fault { IfErr result (λ f. f ≢ fault.NoMemory →
        fill_at kinds.now (lines_in bytes.now) (behind bytes.now) ≡ Err f) }
{
    kinds.show_limits();
    let Some(first) = first_line(bytes) else {
        return Err(LogFault::Cut);
    };
    let Some(fill) = read_fill(alloc, kinds.nets, first.line)? else {
        return Err(LogFault::Line { line: 3 });
    };
    let trails = read_ordered(alloc, fill, kinds, first.after)?;
    Ok(trails)
}

// The line of the name, and the filled gates after it.
fn read_named(
    alloc: Global,
    bytes: &[u8],
    name: &Name,
    kinds: &Kinds,
) -> Result<TrailCertificate, LogFault>
    requires few { length bytes.now ≤ MOST_BYTES }
    ensures trails { IfOk result (λ trails.
        named_at name.now kinds.now (lines_in bytes.now) (behind bytes.now) ≡ Ok trails) }
    ensures fault { IfErr result (λ f. f ≢ fault.NoMemory →
        named_at name.now kinds.now (lines_in bytes.now) (behind bytes.now) ≡ Err f) }
{
    let Some(first) = first_line(bytes) else {
        return Err(LogFault::Cut);
    };
    if !is_named(first.line, name) {
        return Err(LogFault::Cell);
    }
    let trails = read_filled(alloc, kinds, first.after)?;
    Ok(trails)
}

#[tactic(auto, unfolding(crate::specs::Reading::trails_of))]
fn read_text(
    alloc: Global,
    bytes: &[u8],
    name: &Name,
    kinds: &Kinds,
) -> Result<TrailCertificate, LogFault>
    requires few { length bytes.now ≤ MOST_BYTES }
    ensures trails { IfOk result (λ trails. trails_of bytes.now name.now kinds.now ≡ Ok trails) }
    ensures fault { IfErr result (λ f. f ≢ fault.NoMemory → trails_of bytes.now name.now kinds.now ≡ Err f) }
{
    let Some(first) = first_line(bytes) else {
        return Err(LogFault::Cut);
    };
    if !is_word(first.line, b"cellgen-trails 1") {
        return Err(LogFault::Version);
    }
    let trails = read_named(alloc, first.after, name, kinds)?;
    Ok(trails)
}

/// The certificate of which the bytes are the text, for the cell of that name and the kinds of its fingers. The
/// name has 1 to 32 bytes and no line feed, and there are at most [`MOST_BYTES`] bytes.
pub fn read_trails(
    alloc: Global,
    bytes: &[u8],
    name: &Name,
    kinds: &Kinds,
) -> Result<TrailCertificate, LogFault>
    requires name { IsLogName name.now }
    requires few { length bytes.now ≤ MOST_BYTES }
    // The certificate of the definition, or its first fault; memory may run out.
    ensures trails { IfOk result (λ trails. trails_of bytes.now name.now kinds.now ≡ Ok trails) }
    ensures fault { IfErr result (λ f. f ≢ fault.NoMemory → trails_of bytes.now name.now kinds.now ≡ Err f) }

    // The one certificate that fits and has these bytes as its text; or none has them.
    ensures fits { IfOk result (λ trails. TrailsFit kinds.now trails) }
    ensures text { IfOk result (λ trails. bytes.now ≡ trails_text name.now trails) }
    ensures one { IfOk result (λ trails. (other : CertificateOf) → TrailsFit kinds.now other →
        trails_text name.now other ≡ bytes.now → other ≡ trails) }
    ensures few { IfOk result (λ trails. length trails.lemmas ≤ length bytes.now) }
    ensures none { IfErr result (λ f. f ≢ fault.NoMemory →
        (trails : CertificateOf) → TrailsFit kinds.now trails → trails_text name.now trails ≢ bytes.now) }
{
    kinds.show_limits();
    let trails = read_text(alloc, bytes, name, kinds)?;
    Ok(trails)
}
