ghost use Rattle.std.specs.Prelude.{◌≡◌, ◌++◌, All, IfOk, IfSome, OnOk};
ghost use Rattle.std.specs.List.{flat_map};
ghost use Rattle.bound_log.specs.Fits.{BestFits, ForSome, StepFits};
ghost use Rattle.bound_log.specs.Text.{best_text, column_line};
ghost use Rattle.trail_log.specs.Text.{fill_line, order_line};
ghost use Rattle.order_log.specs.Text.{certificate_text, head_lines, lemma_line};

use crate::list::put_list;
use crate::{LemmaText, OrderCertificate};
use bound_log::{Best, LineWriter, LogStep};
use cell_num::{Bytes, Name, NoMemory};
use std::alloc::Global;
use trail_log::NetList;

fn put_head(out: &mut Bytes, version: &[u8], name: &Name) -> Result<(), NoMemory>
    ensures { OnOk result (out.new ≡ out.old ++ head_lines version.now name.now) }
{
    out.extend(version)?;
    out.extend(b"\ncell ")?;
    out.extend(name.as_slice())?;
    out.extend(b"\n")?;
    Ok(())
}

fn put_fill(out: &mut Bytes, fill: &NetList) -> Result<(), NoMemory>
    ensures { OnOk result (out.new ≡ out.old ++ fill_line fill.now) }
{
    out.extend(b"fill ")?;
    put_list(out, fill.as_slice())?;
    out.extend(b"\n")?;
    Ok(())
}

fn put_order(out: &mut Bytes, order: &NetList) -> Result<(), NoMemory>
    ensures { OnOk result (out.new ≡ out.old ++ order_line order.now) }
{
    out.extend(b"order ")?;
    put_list(out, order.as_slice())?;
    out.extend(b"\n")?;
    Ok(())
}

fn put_lemmas<L: LemmaText>(out: &mut Bytes, lemmas: &[L]) -> Result<(), NoMemory>
    ensures { OnOk result (out.new ≡ out.old ++ flat_map (lemma_line L.fields) lemmas.now) }
{
    for lemma in lemmas {
        lemma.put(out)?;
    }
    Ok(())
}

fn put_columns(out: &mut Bytes, line: &mut LineWriter, steps: &[LogStep]) -> Result<(), NoMemory>
    requires { All (λ step. ForSome (λ k. StepFits k step)) steps.now }
    ensures { OnOk result (out.new ≡ out.old ++ flat_map column_line steps.now) }
{
    for step in steps {
        out.extend(line.column(step))?;
    }
    Ok(())
}

fn put_best(alloc: Global, out: &mut Bytes, best: &Option<Best>) -> Result<(), NoMemory>
    requires { ForSome (λ k. IfSome best.now (BestFits k)) }
    ensures { OnOk result (out.new ≡ out.old ++ best_text best.now) }
{
    let Some(best) = best else {
        out.extend(b"open\n")?;
        return Ok(());
    };
    let mut line = LineWriter::new(alloc)?;
    out.extend(line.best(best.gaps))?;
    put_columns(out, &mut line, best.steps.as_slice())?;
    Ok(())
}

/// The text of a certificate for the cell of that name. The first line is the version.
pub fn write_certificate<L: LemmaText>(
    alloc: Global,
    version: &[u8],
    name: &Name,
    certificate: &OrderCertificate<L>,
) -> Result<Bytes, NoMemory>
    requires { ForSome (λ k. IfSome certificate.now.best (BestFits k)) }
    ensures { IfOk result (λ text. text ≡ certificate_text L.fields version.now name.now certificate.now) }
{
    let mut out = Bytes::new(alloc);
    put_head(&mut out, version, name)?;
    put_fill(&mut out, &certificate.fill)?;
    put_order(&mut out, &certificate.order)?;
    put_lemmas(&mut out, certificate.lemmas.as_slice())?;
    put_best(alloc, &mut out, &certificate.best)?;
    out.extend(b"end\n")?;
    Ok(out)
}
