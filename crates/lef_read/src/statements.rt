// Whole statements after their first word.
ghost use Rattle.std.specs.Prelude.{◌≤◌, false, length, OnOk};
ghost use Rattle.lef_read.specs.Statements.{Steps, origin_in, passed, rect_of, size_in, units_passed};

use crate::cursor::Cursor;
use crate::fault::LefFault;
use crate::keyword::is;
use crate::sides::Sides;
use crate::token::Token;

/// Passes over all up to and with `;`.
#[tactic(auto, unfolding(crate::specs::Statements::passed))]
pub fn pass(cursor: &mut Cursor<'_>) -> Result<(), LefFault>
    ensures steps { Steps result (passed cursor.old) cursor.new }
    ensures less { OnOk result (length cursor.new ≤ length cursor.old) }
{
    'tokens: loop {
        match cursor.next() {
            Some(Token::Semicolon { .. }) => return Ok(()),
            Some(Token::Word { .. } | Token::Quoted { .. }) => {}
            Some(Token::Torn) | None => return Err(LefFault::Cut),
        }
    }
}

/// Passes over all up to and with END UNITS.
#[tactic(auto, unfolding(crate::specs::Statements::units_passed))]
pub fn units(cursor: &mut Cursor<'_>) -> Result<(), LefFault>
    ensures steps { Steps result (units_passed false cursor.old) cursor.new }
    ensures less { OnOk result (length cursor.new ≤ length cursor.old) }
{
    let mut end = false;
    'tokens: loop {
        match cursor.next() {
            Some(Token::Word { text, .. }) => {
                if end && is(text, b"UNITS") {
                    return Ok(());
                }
                end = is(text, b"END");
            }
            Some(Token::Quoted { .. } | Token::Semicolon { .. }) => end = false,
            Some(Token::Torn) | None => return Err(LefFault::Cut),
        }
    }
}

/// SIZE width BY height `;`
pub fn size(cursor: &mut Cursor<'_>) -> Result<(), LefFault>
    ensures steps { Steps result (size_in cursor.old) cursor.new }
    ensures less { OnOk result (length cursor.new ≤ length cursor.old) }
{
    cursor.number()?;
    cursor.keyword(b"BY")?;
    cursor.number()?;
    cursor.semicolon()?;
    Ok(())
}

/// ORIGIN 0 0 `;`, whose first word is on the line.
pub fn origin(cursor: &mut Cursor<'_>, line: u32) -> Result<(), LefFault>
    ensures steps { Steps result (origin_in line cursor.old) cursor.new }
    ensures less { OnOk result (length cursor.new ≤ length cursor.old) }
{
    let x = cursor.number()?;
    let y = cursor.number()?;
    if x != 0 {
        return Err(LefFault::Statement { line });
    }
    if y != 0 {
        return Err(LefFault::Statement { line });
    }
    cursor.semicolon()?;
    Ok(())
}

/// The sides of a rectangle after its word RECT, which is on the line.
#[tactic(auto, using(crate::proofs::Numbered::flat, crate::proofs::Numbered::low, crate::proofs::Numbered::whole))]
pub fn sides(cursor: &mut Cursor<'_>, line: u32) -> Result<Sides, LefFault>
    ensures steps { Steps result (rect_of line cursor.old) cursor.new }
    ensures less { OnOk result (length cursor.new ≤ length cursor.old) }
{
    let x1 = cursor.number()?;
    let y1 = cursor.number()?;
    let x2 = cursor.number()?;
    let y2 = cursor.number()?;
    if x2 <= x1 {
        return Err(LefFault::Number { line });
    }
    if y2 <= y1 {
        return Err(LefFault::Number { line });
    }
    Ok(Sides { x1, y1, x2, y2 })
}
