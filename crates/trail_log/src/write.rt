ghost use Rattle.std.specs.Prelude.{◌≡◌, ◌++◌, All, IfOk, IfSome, Ok, OnOk};
ghost use Rattle.std.specs.List.{flat_map};
ghost use Rattle.row_state.specs.declared.kind.Kinds.{Kinds as KindsOf};
ghost use Rattle.row_state.specs.Start.{AreSomeKinds};
ghost use Rattle.bound_log.specs.Fits.{BestFits, ForSome, IsLogName, StepFits};
ghost use Rattle.bound_log.specs.Text.{best_text, column_line};
ghost use Rattle.trail_log.specs.Spelling.{list_text};
ghost use Rattle.trail_log.specs.Fits.{TrailsFit};
ghost use Rattle.trail_log.specs.Reading.{trails_of};
ghost use Rattle.trail_log.specs.Text.{fill_line, head_lines, lemma_line, order_line, trails_text};

use crate::listed::list_text;
use crate::text::number_text;
use crate::{LemmaLine, NetList, TrailCertificate};
use bound_log::{Best, LineWriter, LogStep};
use cell_num::{Bytes, Name, NoMemory};
use std::alloc::Global;

fn put_head(out: &mut Bytes, name: &Name) -> Result<(), NoMemory>
    ensures { OnOk result (out.new ≡ out.old ++ head_lines name.now) }
{
    out.extend(b"cellgen-trails 1\ncell ")?;
    out.extend(name.as_slice())?;
    out.extend(b"\n")?;
    Ok(())
}

fn put_fill(alloc: Global, out: &mut Bytes, fill: &NetList) -> Result<(), NoMemory>
    ensures { OnOk result (out.new ≡ out.old ++ fill_line fill.now) }
{
    let gates = list_text(alloc, fill.as_slice())?;
    out.extend(b"fill ")?;
    out.extend(gates.as_slice())?;
    out.extend(b"\n")?;
    Ok(())
}

fn put_order(alloc: Global, out: &mut Bytes, order: &NetList) -> Result<(), NoMemory>
    ensures { OnOk result (out.new ≡ out.old ++ order_line order.now) }
{
    let gates = list_text(alloc, order.as_slice())?;
    out.extend(b"order ")?;
    out.extend(gates.as_slice())?;
    out.extend(b"\n")?;
    Ok(())
}

fn put_lemma(alloc: Global, out: &mut Bytes, lemma: &LemmaLine) -> Result<(), NoMemory>
    ensures { OnOk result (out.new ≡ out.old ++ lemma_line lemma.now) }
{
    let bound = number_text(alloc, lemma.bound)?;
    let done = number_text(alloc, lemma.done)?;
    let odd = list_text(alloc, lemma.odd.as_slice())?;
    let classes = list_text(alloc, lemma.classes.as_slice())?;
    out.extend(b"lemma ")?;
    out.extend(bound.as_slice())?;
    out.extend(b" ")?;
    out.extend(done.as_slice())?;
    out.extend(b" ")?;
    out.extend(odd.as_slice())?;
    out.extend(b" - ")?;
    out.extend(classes.as_slice())?;
    out.extend(b"\n")?;
    Ok(())
}

fn put_lemmas(alloc: Global, out: &mut Bytes, lemmas: &[LemmaLine]) -> Result<(), NoMemory>
    ensures { OnOk result (out.new ≡ out.old ++ flat_map lemma_line lemmas.now) }
{
    for lemma in lemmas {
        put_lemma(alloc, out, lemma)?;
    }
    Ok(())
}

fn put_columns(out: &mut Bytes, line: &mut LineWriter, steps: &[LogStep]) -> Result<(), NoMemory>
    requires { All (λ step. ForSome (λ k. StepFits k step)) steps.now }
    ensures { OnOk result (out.new ≡ out.old ++ flat_map column_line steps.now) }
{
    for step in steps {
        out.extend(line.column(step))?;
    }
    Ok(())
}

fn put_best(alloc: Global, out: &mut Bytes, best: &Option<Best>) -> Result<(), NoMemory>
    requires { ForSome (λ k. IfSome best.now (BestFits k)) }
    ensures { OnOk result (out.new ≡ out.old ++ best_text best.now) }
{
    let Some(best) = best else {
        out.extend(b"open\n")?;
        return Ok(());
    };
    let mut line = LineWriter::new(alloc)?;
    out.extend(line.best(best.gaps))?;
    put_columns(out, &mut line, best.steps.as_slice())?;
    Ok(())
}

fn text(alloc: Global, name: &Name, trails: &TrailCertificate) -> Result<Bytes, NoMemory>
    requires { ForSome (λ k. TrailsFit k trails.now) }
    ensures { IfOk result (λ text. text ≡ trails_text name.now trails.now) }
{
    let mut out = Bytes::new(alloc);
    put_head(&mut out, name)?;
    put_fill(alloc, &mut out, &trails.fill)?;
    put_order(alloc, &mut out, &trails.order)?;
    put_lemmas(alloc, &mut out, trails.lemmas.as_slice())?;
    put_best(alloc, &mut out, &trails.best)?;
    out.extend(b"end\n")?;
    Ok(out)
}

/// The text of a certificate for the cell of that name, which has 1 to 32 bytes and no line feed. Reading it gives
/// the same certificate, for all kinds that it fits.
pub fn write_trails(
    alloc: Global,
    name: &Name,
    trails: &TrailCertificate,
) -> Result<Vec<u8>, NoMemory>
    requires name { IsLogName name.now }
    requires fits { ForSome (λ k. TrailsFit k trails.now) }
    ensures text { IfOk result (λ bytes. bytes.items ≡ trails_text name.now trails.now) }
    ensures reads { IfOk result (λ bytes. (k : KindsOf) → AreSomeKinds k → TrailsFit k trails.now →
        trails_of bytes.items name.now k ≡ Ok trails.now) }
{
    let text = text(alloc, name, trails)?;
    Ok(text.into_vec())
}
