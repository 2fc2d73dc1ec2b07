// Blocks of rectangles: the ports of pins, and obstructions.
ghost use Rattle.std.specs.Prelude.{◌≡◌, ◌≤◌, length, OnOk};
ghost use Rattle.lef_read.specs.Reading.{At, InBlock, behind_block, layer_named, read, rect_begins, then_read};
ghost use Rattle.lef_read.specs.Statements.{Steps, layer_in};
ghost use Rattle.lef_read.specs.Drafts.{Keeps, block_shown, outcome};
ghost use Rattle.lef_read.specs.declared.block_kind.Current.TheVariants.{NoLayer};

use crate::block_kind::{Block, Current};
use crate::cursor::Cursor;
use crate::draft::Draft;
use crate::fault::LefFault;
use crate::keyword::{Keyword, is, keyword_of};
use crate::statements::{pass, sides};
use box_geom::Layer;

fn layer_named(word: &[u8]) -> Current
    ensures { result ≡ layer_named word.now }
{
    if is(word, b"METAL1") {
        return Current::Wires {
            layer: Layer::Metal1,
        };
    }
    if is(word, b"METAL2") {
        return Current::Wires {
            layer: Layer::Metal2,
        };
    }
    Current::OtherLayer
}

// The layer that a LAYER statement names.
fn layer(cursor: &mut Cursor<'_>) -> Result<Current, LefFault>
    ensures steps { Steps result (layer_in cursor.old) cursor.new }
    ensures less { OnOk result (length cursor.new ≤ length cursor.old) }
{
    let word = cursor.word()?;
    cursor.semicolon()?;
    Ok(layer_named(word.text))
}

// A rectangle after its word RECT, which is on the line.
#[tactic(auto, using(crate::proofs::Flows::rect_rules))]
fn rect(
    cursor: &mut Cursor<'_>,
    draft: &mut Draft,
    block: &Block<'_>,
    line: u32,
    current: Current,
) -> Result<(), LefFault>
    ensures less { OnOk result (length cursor.new ≤ length cursor.old) }
    ensures keeps { Keeps result
        (outcome draft.old (then_read (rect_begins (block_shown block.now) current line) (λ q. read q cursor.old)))
        (outcome draft.new (read (At (InBlock (block_shown block.now) current)) cursor.new)) }
{
    match current {
        Current::NoLayer => Err(LefFault::Statement { line }),
        Current::OtherLayer => {
            sides(cursor, line)?;
            cursor.semicolon()?;
            Ok(())
        }
        Current::Wires { layer } => {
            let sides = sides(cursor, line)?;
            draft.rect(block, line, layer, &sides)?;
            cursor.semicolon()?;
            Ok(())
        }
    }
}

/// Takes the statements of a block up to and with its END.
#[tactic(auto, using(crate::proofs::Flows::block_rules))]
pub fn block(cursor: &mut Cursor<'_>, draft: &mut Draft, block: &Block<'_>) -> Result<(), LefFault>
    ensures less { OnOk result (length cursor.new ≤ length cursor.old) }
    ensures keeps { Keeps result
        (outcome draft.old (read (At (InBlock (block_shown block.now) NoLayer)) cursor.old))
        (outcome draft.new (read (behind_block (block_shown block.now)) cursor.new)) }
{
    let mut current = Current::NoLayer;
    'statements: loop {
        let word = cursor.word()?;
        match keyword_of(word.text) {
            Keyword::End => return Ok(()),
            Keyword::Layer => current = layer(cursor)?,
            Keyword::Rect => rect(cursor, draft, block, word.line, current)?,
            Keyword::Class => pass(cursor)?,
            _ => return Err(LefFault::Statement { line: word.line }),
        }
    }
}
