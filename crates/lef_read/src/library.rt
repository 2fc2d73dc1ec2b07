// Macros of a library, and the library.
ghost use Rattle.std.specs.Prelude.{◌≤◌, [], Ok, OnOk, length};
ghost use Rattle.lef_read.specs.Reading.{At, InLibrary, InMacro, MacroName, read};
ghost use Rattle.lef_read.specs.Drafts.{Keeps, outcome};

use crate::block::block;
use crate::block_kind::Block;
use crate::cursor::Cursor;
use crate::draft::Draft;
use crate::fault::LefFault;
use crate::keyword::{Keyword, keyword_of};
use crate::pin::pin;
use crate::statements::{origin, pass, size, units};
use std::alloc::Global;

// The statements of a macro up to and with its END.
#[tactic(auto, using(crate::proofs::Flows::macro_statement_rules))]
fn statements(
    alloc: Global,
    cursor: &mut Cursor<'_>,
    draft: &mut Draft,
    cell: &[u8],
) -> Result<(), LefFault>
    ensures less { OnOk result (length cursor.new ≤ length cursor.old) }
    ensures keeps { Keeps result (outcome draft.old (read (At (InMacro cell.now)) cursor.old))
        (outcome draft.new (read (At InLibrary) cursor.new)) }
{
    'statements: loop {
        let word = cursor.word()?;
        match keyword_of(word.text) {
            Keyword::End => {
                cursor.named(cell)?;
                return Ok(());
            }
            Keyword::Size => size(cursor)?,
            Keyword::Origin => origin(cursor, word.line)?,
            Keyword::Pin => pin(alloc, cursor, draft, cell)?,
            Keyword::Obs => block(cursor, draft, &Block::OfMacro { cell })?,
            Keyword::Density => return Err(LefFault::Statement { line: word.line }),
            _ => pass(cursor)?,
        }
    }
}

// A macro after its word MACRO.
#[tactic(auto, using(crate::proofs::Flows::macro_head_rules))]
fn cell(alloc: Global, cursor: &mut Cursor<'_>, draft: &mut Draft) -> Result<(), LefFault>
    ensures less { OnOk result (length cursor.new ≤ length cursor.old) }
    ensures keeps { Keeps result (outcome draft.old (read MacroName cursor.old))
        (outcome draft.new (read (At InLibrary) cursor.new)) }
{
    let name = cursor.word()?;
    draft.begin(name.text);
    statements(alloc, cursor, draft, name.text)?;
    Ok(())
}

/// Takes all statements of a library, to its end.
#[tactic(auto, using(crate::proofs::Flows::library_rules))]
pub fn library(alloc: Global, cursor: &mut Cursor<'_>, draft: &mut Draft) -> Result<(), LefFault>
    ensures less { OnOk result (length cursor.new ≤ length cursor.old) }
    ensures keeps { Keeps result (outcome draft.old (read (At InLibrary) cursor.old)) (outcome draft.new (Ok [])) }
{
    'statements: loop {
        let Some(word) = cursor.word_or_end()? else {
            return Ok(());
        };
        match keyword_of(word.text) {
            Keyword::End => {
                cursor.keyword(b"LIBRARY")?;
                return Ok(());
            }
            Keyword::Header => pass(cursor)?,
            Keyword::Units => units(cursor)?,
            Keyword::Macro => cell(alloc, cursor, draft)?,
            _ => return Err(LefFault::Statement { line: word.line }),
        }
    }
}
