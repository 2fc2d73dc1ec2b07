ghost use Rattle.std.specs.Prelude.{◌≡◌, ◌≢◌, ◌≤◌, ◌+◌, IfOk, IfErr, Ok, Err, length};
ghost use Rattle.log_lines.specs.Lines.{behind, lines_in};
ghost use Rattle.bound_log.specs.declared.fault.LogFault.TheVariants as fault;
ghost use Rattle.bound_log.specs.declared.log.Log.{Log as LogOf};
ghost use Rattle.bound_log.specs.Fits.{Fits, IsLogName};
ghost use Rattle.bound_log.specs.Reading.{columns_at, end_at, log_at, log_of, named_at};
ghost use Rattle.bound_log.specs.Text.{log_text};

use crate::head::version;
use crate::line::{read_column, read_entry};
use crate::{Best, Ending, Entry, LemmaList, Log, LogFault, LogSteps};
use cell_num::{MOST_BYTES, Name};
use log_lines::{first_line, is_named, is_word};
use row_state::Kinds;
use std::alloc::Global;

/// The line `end`, of that number, and nothing after it: else the fault of the first place that is wrong.
#[tactic(auto, using(crate::proofs::Ends::ended, crate::proofs::Ends::ended_before, crate::proofs::Ends::not_ended))]
pub fn read_end(bytes: &[u8], number: u32) -> Result<(), LogFault>
    requires { number ≤ MOST_BYTES + 5 }
    ensures { result ≡ end_at number (lines_in bytes.now) (behind bytes.now) }
{
    let Some(first) = first_line(bytes) else {
        return Err(LogFault::Cut);
    };
    if !is_word(first.line, b"end") {
        return Err(LogFault::Line { line: number });
    }
    if !first.after.is_empty() {
        return Err(LogFault::Line { line: number + 1 });
    }
    Ok(())
}

/// The columns up to the line `end`, the last, from the line of that number on: else the first fault.
#[tactic(auto, using(crate::proofs::Rules::read_columns_rules))]
pub fn read_columns(
    alloc: Global,
    kinds: &Kinds,
    bytes: &[u8],
    from: u32,
) -> Result<LogSteps, LogFault>
    requires few { length bytes.now + from ≤ MOST_BYTES + 5 }
    ensures steps { IfOk result (λ steps.
        columns_at kinds.now from (lines_in bytes.now) (behind bytes.now) ≡ Ok steps) }
    ensures fault { IfErr result (λ f. f ≢ fault.NoMemory →
        columns_at kinds.now from (lines_in bytes.now) (behind bytes.now) ≡ Err f) }
{
    let mut steps = LogSteps::new(alloc);
    let mut rest = bytes;
    let mut number = from;
    'columns: loop {
        let Some(first) = first_line(rest) else {
            return Err(LogFault::Cut);
        };
        if is_word(first.line, b"end") {
            read_end(rest, number)?;
            return Ok(steps);
        }
        let Some(listed) = read_column(kinds, first.line) else {
            return Err(LogFault::Line { line: number });
        };
        steps.push(listed)?;
        rest = first.after;
        number += 1;
    }
}

// The lemmas of a log of that version, and after them the row that they certify, or `open`.
#[tactic(auto, using(crate::proofs::Rules::read_lemmas_rules))]
fn read_lemmas(
    alloc: Global,
    version: u32,
    kinds: &Kinds,
    bytes: &[u8],
    from: u32,
) -> Result<Log, LogFault>
    requires few { length bytes.now + from ≤ MOST_BYTES + 3 }
    ensures log { IfOk result (λ log.
        log_at version kinds.now from (lines_in bytes.now) (behind bytes.now) ≡ Ok log) }
    ensures fault { IfErr result (λ f. f ≢ fault.NoMemory →
        log_at version kinds.now from (lines_in bytes.now) (behind bytes.now) ≡ Err f) }
{
    let mut lemmas = LemmaList::new(alloc);
    let mut rest = bytes;
    let mut number = from;
    'lemmas: loop {
        let Some(first) = first_line(rest) else {
            return Err(LogFault::Cut);
        };
        match read_entry(alloc, kinds, first.line)? {
            Some(Entry::Lemma(lemma)) => lemmas.push(lemma)?,
            Some(Entry::Ending(Ending::Gaps(gaps))) => {
                let steps = read_columns(alloc, kinds, first.after, number + 1)?;
                return Ok(Log {
                    version,
                    lemmas,
                    best: Some(Best { gaps, steps }),
                });
            }
            Some(Entry::Ending(Ending::Open)) => {
                read_end(first.after, number + 1)?;
                return Ok(Log {
                    version,
                    lemmas,
                    best: None,
                });
            }
            None => return Err(LogFault::Line { line: number }),
        }
        rest = first.after;
        number += 1;
    }
}

fn read_named(
    alloc: Global,
    version: u32,
    bytes: &[u8],
    name: &Name,
    kinds: &Kinds,
) -> Result<Log, LogFault>
    requires few { length bytes.now ≤ MOST_BYTES }
    ensures log { IfOk result (λ log.
        named_at name.now kinds.now version (lines_in bytes.now) (behind bytes.now) ≡ Ok log) }
    ensures fault { IfErr result (λ f. f ≢ fault.NoMemory →
        named_at name.now kinds.now version (lines_in bytes.now) (behind bytes.now) ≡ Err f) }
{
    let Some(first) = first_line(bytes) else {
        return Err(LogFault::Cut);
    };
    if !is_named(first.line, name) {
        return Err(LogFault::Cell);
    }
    let log = read_lemmas(alloc, version, kinds, first.after, 3)?;
    Ok(log)
}

#[tactic(auto, unfolding(crate::specs::Reading::log_of))]
fn read_text(alloc: Global, bytes: &[u8], name: &Name, kinds: &Kinds) -> Result<Log, LogFault>
    requires few { length bytes.now ≤ MOST_BYTES }
    ensures log { IfOk result (λ log. log_of bytes.now name.now kinds.now ≡ Ok log) }
    ensures fault { IfErr result (λ f. f ≢ fault.NoMemory → log_of bytes.now name.now kinds.now ≡ Err f) }
{
    let Some(first) = first_line(bytes) else {
        return Err(LogFault::Cut);
    };
    let Some(version) = version(first.line) else {
        return Err(LogFault::Version);
    };
    let log = read_named(alloc, version, first.after, name, kinds)?;
    Ok(log)
}

/// The log of which the bytes are the text, for the cell of that name and the kinds of its fingers. The
/// name has 1 to 32 bytes and no line feed, and there are at most [`MOST_BYTES`] bytes.
pub fn read_log(alloc: Global, bytes: &[u8], name: &Name, kinds: &Kinds) -> Result<Log, LogFault>
    requires name { IsLogName name.now }
    requires few { length bytes.now ≤ MOST_BYTES }
    // The log of the definition, or its first fault; memory may run out.
    ensures log { IfOk result (λ log. log_of bytes.now name.now kinds.now ≡ Ok log) }
    ensures fault { IfErr result (λ f. f ≢ fault.NoMemory → log_of bytes.now name.now kinds.now ≡ Err f) }

    // The one log of all that has these bytes as its text, and it fits; or no log that fits has them.
    ensures fits { IfOk result (λ log. Fits kinds.now log) }
    ensures text { IfOk result (λ log. bytes.now ≡ log_text name.now log) }
    ensures one { IfOk result (λ log. (other : LogOf) → log_text name.now other ≡ bytes.now → other ≡ log) }
    ensures few { IfOk result (λ log. length log.lemmas ≤ length bytes.now) }
    ensures none { IfErr result (λ f. f ≢ fault.NoMemory →
        (log : LogOf) → Fits kinds.now log → log_text name.now log ≢ bytes.now) }
{
    kinds.show_limits();
    let log = read_text(alloc, bytes, name, kinds)?;
    Ok(log)
}
