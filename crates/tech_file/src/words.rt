ghost use Rattle.std.specs.Prelude.{◌≡◌, IfOk, map};

use cell_num::{Name, Names, NoMemory};
use std::alloc::Global;

/// A copy of a text.
pub fn copy(alloc: Global, text: &str) -> Result<Name, NoMemory>
    ensures { IfOk result (λ n. n ≡ text.now) }
{
    cell_num::copy(alloc, text.as_bytes())
}

/// Copies of texts.
pub fn copies(alloc: Global, texts: &[&str]) -> Result<Names, NoMemory>
    ensures { IfOk result (λ ns. ns ≡ map (λ text. text.now) texts.now) }
{
    let mut names = Names::new(alloc);
    'texts: for text in texts {
        names.push(copy(alloc, text)?)?;
    }
    Ok(names)
}
