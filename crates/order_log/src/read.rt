ghost use Rattle.std.specs.Prelude.{◌≡◌, ◌≢◌, ◌≤◌, IfOk, IfErr, Ok, Err, length};
ghost use Rattle.log_lines.specs.Lines.{behind, lines_in};
ghost use Rattle.bound_log.specs.declared.fault.LogFault.TheVariants as fault;
ghost use Rattle.order_log.specs.Reading.{certificate_of, fill_at, lemmas_at, named_at, order_at};

use crate::line::{read_entry, read_fill, read_order};
use crate::{LemmaText, OrderCertificate, OrderEntry};
use bound_log::{Best, Ending, LogFault, read_columns, read_end};
use cell_num::{List, MOST_BYTES, Name};
use log_lines::{first_line, is_named, is_word};
use row_state::Kinds;
use std::alloc::Global;
use trail_log::NetList;

// The lemmas after the order, and after them the row that they certify, or `open`.
#[tactic(auto, using(crate::proofs::Rules::read_lemmas_rules))]
fn read_lemmas<L: LemmaText>(
    alloc: Global,
    fill: NetList,
    order: NetList,
    kinds: &Kinds,
    bytes: &[u8],
) -> Result<OrderCertificate<L>, LogFault>
    requires few { length bytes.now ≤ MOST_BYTES }
    ensures certificate { IfOk result (λ certificate.
        lemmas_at (L.said kinds.now.nets) fill order kinds.now 5 (lines_in bytes.now) (behind bytes.now)
        ≡ Ok certificate) }
    ensures fault { IfErr result (λ f. f ≢ fault.NoMemory →
        lemmas_at (L.said kinds.now.nets) fill order kinds.now 5 (lines_in bytes.now) (behind bytes.now)
        ≡ Err f) }
{
    kinds.show_limits();
    let mut lemmas = List::new(alloc);
    let mut rest = bytes;
    let mut number = 5;
    'lemmas: loop {
        let Some(first) = first_line(rest) else {
            return Err(LogFault::Cut);
        };
        match read_entry(alloc, kinds.nets, first.line)? {
            Some(OrderEntry::Lemma(lemma)) => lemmas.push(lemma)?,
            Some(OrderEntry::Ending(Ending::Gaps(gaps))) => {
                let steps = read_columns(alloc, kinds, first.after, number + 1)?;
                let best = Some(Best { gaps, steps });
                return Ok(OrderCertificate {
                    fill,
                    order,
                    lemmas,
                    best,
                });
            }
            Some(OrderEntry::Ending(Ending::Open)) => {
                read_end(first.after, number + 1)?;
                return Ok(OrderCertificate {
                    fill,
                    order,
                    lemmas,
                    best: None,
                });
            }
            None => return Err(LogFault::Line { line: number }),
        }
        rest = first.after;
        number += 1;
    }
}

// The line of the order, and the lemmas after it.
fn read_ordered<L: LemmaText>(
    alloc: Global,
    fill: NetList,
    kinds: &Kinds,
    bytes: &[u8],
) -> Result<OrderCertificate<L>, LogFault>
    requires few { length bytes.now ≤ MOST_BYTES }
    ensures certificate { IfOk result (λ certificate.
        order_at (L.said kinds.now.nets) fill kinds.now (lines_in bytes.now) (behind bytes.now) ≡ Ok certificate) }
    ensures fault { IfErr result (λ f. f ≢ fault.NoMemory →
        order_at (L.said kinds.now.nets) fill kinds.now (lines_in bytes.now) (behind bytes.now) ≡ Err f) }
{
    kinds.show_limits();
    let Some(first) = first_line(bytes) else {
        return Err(LogFault::Cut);
    };
    let Some(order) = read_order(alloc, kinds.nets, first.line)? else {
        return Err(LogFault::Line { line: 4 });
    };
    let certificate = read_lemmas(alloc, fill, order, kinds, first.after)?;
    Ok(certificate)
}

// The line of the filled gates, and the order after it.
fn read_filled<L: LemmaText>(
    alloc: Global,
    kinds: &Kinds,
    bytes: &[u8],
) -> Result<OrderCertificate<L>, LogFault>
    requires few { length bytes.now ≤ MOST_BYTES }
    ensures certificate { IfOk result (λ certificate.
        fill_at (L.said kinds.now.nets) kinds.now (lines_in bytes.now) (behind bytes.now) ≡ Ok certificate) }
    ensures fault { IfErr result (λ f. f ≢ fault.NoMemory →
        fill_at (L.said kinds.now.nets) kinds.now (lines_in bytes.now) (behind bytes.now) ≡ Err f) }
{
    kinds.show_limits();
    let Some(first) = first_line(bytes) else {
        return Err(LogFault::Cut);
    };
    let Some(fill) = read_fill(alloc, kinds.nets, first.line)? else {
        return Err(LogFault::Line { line: 3 });
    };
    let certificate = read_ordered(alloc, fill, kinds, first.after)?;
    Ok(certificate)
}

// The line of the name, and the filled gates after it.
fn read_named<L: LemmaText>(
    alloc: Global,
    bytes: &[u8],
    name: &Name,
    kinds: &Kinds,
) -> Result<OrderCertificate<L>, LogFault>
    requires few { length bytes.now ≤ MOST_BYTES }
    ensures certificate { IfOk result (λ certificate.
        named_at (L.said kinds.now.nets) name.now kinds.now (lines_in bytes.now) (behind bytes.now)
        ≡ Ok certificate) }
    ensures fault { IfErr result (λ f. f ≢ fault.NoMemory →
        named_at (L.said kinds.now.nets) name.now kinds.now (lines_in bytes.now) (behind bytes.now)
        ≡ Err f) }
{
    let Some(first) = first_line(bytes) else {
        return Err(LogFault::Cut);
    };
    if !is_named(first.line, name) {
        return Err(LogFault::Cell);
    }
    let certificate = read_filled(alloc, kinds, first.after)?;
    Ok(certificate)
}

/// The certificate of which the bytes are the text, for the cell of that name and the kinds of its fingers. The first
/// line is the version.
#[tactic(auto, unfolding(crate::specs::Reading::certificate_of))]
pub fn read_certificate<L: LemmaText>(
    alloc: Global,
    version: &[u8],
    bytes: &[u8],
    name: &Name,
    kinds: &Kinds,
) -> Result<OrderCertificate<L>, LogFault>
    requires few { length bytes.now ≤ MOST_BYTES }
    // The certificate of the definition, or its first fault; memory may run out.
    ensures certificate { IfOk result (λ certificate.
        certificate_of (L.said kinds.now.nets) version.now bytes.now name.now kinds.now ≡ Ok certificate) }
    ensures fault { IfErr result (λ f. f ≢ fault.NoMemory →
        certificate_of (L.said kinds.now.nets) version.now bytes.now name.now kinds.now ≡ Err f) }
{
    let Some(first) = first_line(bytes) else {
        return Err(LogFault::Cut);
    };
    if !is_word(first.line, version) {
        return Err(LogFault::Version);
    }
    let certificate = read_named(alloc, first.after, name, kinds)?;
    Ok(certificate)
}
