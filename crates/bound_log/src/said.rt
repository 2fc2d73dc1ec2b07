ghost use Rattle.std.specs.Prelude.{◌≡◌, ◌≢◌, Err, IfErr, IfOk, Ok};
ghost use Rattle.log_lines.specs.Words.{words_in};
ghost use Rattle.bound_log.specs.declared.fault.LogFault.TheVariants as fault;
ghost use Rattle.bound_log.specs.Line.{entry_in, version_in};
ghost use Rattle.bound_log.specs.Pieces.{column_says, columns_say, entry_says, line_says, said_if, version_says};
ghost use Rattle.bound_log.specs.Pieces.{wrong_at};

use crate::head::version;
use crate::line::{read_column, read_entry};
use crate::{Ending, Entry, LogFault, LogItem, LogPlace, LogStep};
use cell_num::Name;
use log_lines::{is_named, is_word};
use row_state::Kinds;
use std::alloc::Global;

/// What a line says, and what line comes after it.
#[derive(Drop)]
pub struct Said {
    pub item: LogItem,
    pub next: LogPlace,
}

fn said_if(holds: bool, item: LogItem, next: LogPlace, fault: LogFault) -> Result<Said, LogFault>
    ensures { result ≡ said_if holds item next fault }
{
    if holds {
        Ok(Said { item, next })
    } else {
        Err(fault)
    }
}

fn say_version(line: &[u8]) -> Result<Said, LogFault>
    ensures { result ≡ version_says (version_in line.now) }
{
    match version(line) {
        Some(version) => Ok(Said {
            item: LogItem::More,
            next: LogPlace::Cell { version },
        }),
        None => Err(LogFault::Version),
    }
}

fn entry_said(entry: Option<Entry>, fault: LogFault) -> Result<Said, LogFault>
    ensures { result ≡ entry_says entry fault }
{
    match entry {
        Some(Entry::Lemma(lemma)) => Ok(Said {
            item: LogItem::Lemma(lemma),
            next: LogPlace::Lemmas,
        }),
        Some(Entry::Ending(Ending::Gaps(gaps))) => Ok(Said {
            item: LogItem::Gaps(gaps),
            next: LogPlace::Columns,
        }),
        Some(Entry::Ending(Ending::Open)) => Ok(Said {
            item: LogItem::Open,
            next: LogPlace::End,
        }),
        None => Err(fault),
    }
}

fn say_entry(alloc: Global, kinds: &Kinds, number: u32, line: &[u8]) -> Result<Said, LogFault>
    ensures said { IfOk result (λ said.
        entry_says (entry_in kinds.now (words_in line.now)) (fault.Line number) ≡ Ok said) }
    ensures fault { IfErr result (λ f. f ≢ fault.NoMemory →
        entry_says (entry_in kinds.now (words_in line.now)) (fault.Line number) ≡ Err f) }
{
    let entry = read_entry(alloc, kinds, line)?;
    entry_said(entry, LogFault::Line { line: number })
}

fn column_said(column: Option<LogStep>, fault: LogFault) -> Result<Said, LogFault>
    ensures { result ≡ column_says column fault }
{
    match column {
        Some(column) => Ok(Said {
            item: LogItem::Column(column),
            next: LogPlace::Columns,
        }),
        None => Err(fault),
    }
}

fn say_column(kinds: &Kinds, number: u32, line: &[u8]) -> Result<Said, LogFault>
    ensures { result ≡ columns_say kinds.now number line.now }
{
    if is_word(line, b"end") {
        return Ok(Said {
            item: LogItem::End,
            next: LogPlace::Behind,
        });
    }
    column_said(read_column(kinds, line), LogFault::Line { line: number })
}

/// What the line of that number says there.
pub(crate) fn say_line(
    alloc: Global,
    name: &Name,
    kinds: &Kinds,
    place: LogPlace,
    number: u32,
    line: &[u8],
) -> Result<Said, LogFault>
    ensures said { IfOk result (λ said. line_says name.now kinds.now place number line.now ≡ Ok said) }
    ensures fault { IfErr result (λ f. f ≢ fault.NoMemory →
        line_says name.now kinds.now place number line.now ≡ Err f) }
{
    match place {
        LogPlace::Version => say_version(line),
        LogPlace::Cell { version } => said_if(
            is_named(line, name),
            LogItem::Head { version },
            LogPlace::Lemmas,
            LogFault::Cell,
        ),
        LogPlace::Lemmas => say_entry(alloc, kinds, number, line),
        LogPlace::Columns => say_column(kinds, number, line),
        LogPlace::End => said_if(
            is_word(line, b"end"),
            LogItem::End,
            LogPlace::Behind,
            LogFault::Line { line: number },
        ),
        LogPlace::Behind => Err(LogFault::Line { line: number }),
    }
}

pub(crate) fn wrong_at(place: LogPlace, number: u32) -> LogFault
    ensures { result ≡ wrong_at place number }
{
    match place {
        LogPlace::Version => LogFault::Version,
        LogPlace::Cell { .. } => LogFault::Cell,
        LogPlace::Lemmas | LogPlace::Columns | LogPlace::End | LogPlace::Behind => {
            LogFault::Line { line: number }
        }
    }
}
