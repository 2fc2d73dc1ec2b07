ghost use Rattle.std.specs.Prelude.{◌≡◌, ◌≤◌, ◌++◌, IfOk, IsErr, Ok, OnOk, length};
ghost use Rattle.std.specs.List.{flat_map};
ghost use Rattle.row_state.specs.declared.kind.Kinds.{Kinds as KindsOf};
ghost use Rattle.row_state.specs.Start.{AreSomeKinds};
ghost use Rattle.bound_log.specs.Fits.{Fits, IsLogName};
ghost use Rattle.bound_log.specs.Reading.{log_of};
ghost use Rattle.bound_log.specs.Text.{best_text, column_line, lemma_line, log_text};

use crate::out::Out;
use crate::spell::{put_column, put_gaps, put_head, put_lemma};
use crate::{Best, Lemma, Log, LogStep};
use cell_num::{Bytes, MOST_BYTES, Name, NoMemory};
use std::alloc::Global;

fn put_lemmas(out: &mut Bytes, lemmas: &[Lemma]) -> Result<(), NoMemory>
    ensures { OnOk result (out.new ≡ out.old ++ flat_map lemma_line lemmas.now) }
{
    for lemma in lemmas {
        put_lemma(out, lemma)?;
    }
    Ok(())
}

fn put_columns(out: &mut Bytes, steps: &[LogStep]) -> Result<(), NoMemory>
    ensures { OnOk result (out.new ≡ out.old ++ flat_map column_line steps.now) }
{
    for listed in steps {
        put_column(out, listed)?;
    }
    Ok(())
}

fn put_best(out: &mut Bytes, best: &Option<Best>) -> Result<(), NoMemory>
    ensures { OnOk result (out.new ≡ out.old ++ best_text best.now) }
{
    let Some(best) = best else {
        return out.put(b"open\n");
    };
    put_gaps(out, best.gaps)?;
    put_columns(out, best.steps.as_slice())?;
    Ok(())
}

fn text(alloc: Global, name: &Name, log: &Log) -> Result<Bytes, NoMemory>
    ensures { IfOk result (λ text. text ≡ log_text name.now log.now) }
{
    let mut out = Bytes::new(alloc);
    put_head(&mut out, log.version, name)?;
    put_lemmas(&mut out, log.lemmas.as_slice())?;
    put_best(&mut out, &log.best)?;
    out.put(b"end\n")?;
    Ok(out)
}

/// The text of a log for the cell of that name, which has 1 to 32 bytes and no line feed. Reading it gives
/// the same log, for all kinds that the log fits, and a fault for the others. At most [`MOST_BYTES`] lemmas.
pub fn write_log(alloc: Global, name: &Name, log: &Log) -> Result<Vec<u8>, NoMemory>
    requires name { IsLogName name.now }
    requires few { length log.now.lemmas ≤ MOST_BYTES }
    ensures text { IfOk result (λ bytes. bytes.items ≡ log_text name.now log.now) }
    ensures reads { IfOk result (λ bytes.
        (k : KindsOf) → AreSomeKinds k → Fits k log.now → log_of bytes.items name.now k ≡ Ok log.now) }
    ensures refuses { IfOk result (λ bytes.
        (k : KindsOf) → AreSomeKinds k → (Fits k log.now → ⊥) → IsErr (log_of bytes.items name.now k)) }
{
    let text = text(alloc, name, log)?;
    Ok(text.into_vec())
}
