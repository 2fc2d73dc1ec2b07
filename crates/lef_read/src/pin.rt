// Pins of a macro.
ghost use Rattle.std.specs.Prelude.{◌≤◌, OnOk, length};
ghost use Rattle.lef_read.specs.Reading.{At, InMacro, InPin, PinName, read};
ghost use Rattle.lef_read.specs.Drafts.{Keeps, outcome};

use crate::block::block;
use crate::block_kind::Block;
use crate::cursor::Cursor;
use crate::draft::Draft;
use crate::fault::LefFault;
use crate::keyword::{Keyword, keyword_of};
use crate::statements::pass;
use std::alloc::Global;

// The statements of a pin up to and with its END.
#[tactic(auto, using(crate::proofs::Flows::pin_statement_rules))]
fn statements(
    alloc: Global,
    cursor: &mut Cursor<'_>,
    draft: &mut Draft,
    cell: &[u8],
    pin: &[u8],
) -> Result<(), LefFault>
    ensures less { OnOk result (length cursor.new ≤ length cursor.old) }
    ensures keeps { Keeps result (outcome draft.old (read (At (InPin cell.now pin.now)) cursor.old))
        (outcome draft.new (read (At (InMacro cell.now)) cursor.new)) }
{
    'statements: loop {
        let word = cursor.word()?;
        match keyword_of(word.text) {
            Keyword::End => {
                cursor.named(pin)?;
                return Ok(());
            }
            Keyword::Port => block(cursor, draft, &Block::OfPin { cell, pin })?,
            _ => pass(cursor)?,
        }
    }
}

/// Takes a pin after its word PIN.
#[tactic(auto, using(crate::proofs::Flows::pin_head_rules))]
pub fn pin(
    alloc: Global,
    cursor: &mut Cursor<'_>,
    draft: &mut Draft,
    cell: &[u8],
) -> Result<(), LefFault>
    ensures less { OnOk result (length cursor.new ≤ length cursor.old) }
    ensures keeps { Keeps result (outcome draft.old (read (PinName cell.now) cursor.old))
        (outcome draft.new (read (At (InMacro cell.now)) cursor.new)) }
{
    let name = cursor.word()?;
    draft.pin(alloc, name.text)?;
    statements(alloc, cursor, draft, cell, name.text)?;
    Ok(())
}
