ghost use Rattle.std.specs.Prelude.{◌≡◌, ◌∷◌, IfOk, OnOk, decimal};
ghost use Rattle.std.specs.List.{join_with_byte};

use cell_num::{Bytes, Name, NoMemory};
use itoa::Buffer;
use std::alloc::Global;

/// The decimal of a number.
pub(crate) fn number_text(alloc: Global, number: u32) -> Result<Bytes, NoMemory>
    ensures { IfOk result (λ text. text ≡ decimal number) }
{
    let mut text = Bytes::new(alloc);
    text.extend(Buffer::new().format(number).as_bytes())?;
    Ok(text)
}

#[tactic(auto, using(crate::proofs::Joins::joined_behind))]
fn add_words(out: &mut Bytes, byte: u8, words: &[Name]) -> Result<(), NoMemory>
    ensures { OnOk result (out.new ≡ join_with_byte byte (out.old ∷ words.now)) }
{
    for word in words {
        out.push(byte)?;
        out.extend(word.as_slice())?;
    }
    Ok(())
}

/// The words with a byte between each two.
pub(crate) fn joined(alloc: Global, byte: u8, words: &[Name]) -> Result<Bytes, NoMemory>
    ensures { IfOk result (λ text. text ≡ join_with_byte byte words.now) }
{
    let mut out = Bytes::new(alloc);
    if let [first, others @ ..] = words {
        out.extend(first.as_slice())?;
        add_words(&mut out, byte, others)?;
    }
    Ok(out)
}
