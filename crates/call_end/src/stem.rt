ghost use Rattle.std.specs.Prelude.{◌≡◌, ◌++◌, IfOk, string_bytes};

use cell_num::NoMemory;
use std::alloc::Global;
use std::marker::Model;

/// What the names of the files of a cell begin with.
#[derive(Drop)]
pub struct Stem {
    text: String,
}

impl Model for Stem {
    ghost use Rattle.std.specs.Prelude.{ℕ, List, string_bytes};

    ghost Value = { List ℕ };

    ghost view = { λ s. string_bytes s.text };
}

impl Stem {
    /// The text itself, copied.
    pub fn new(alloc: Global, text: &str) -> Result<Stem, NoMemory>
        ensures { IfOk result (λ stem. stem ≡ text.now) }
    {
        let text = String::from_str(alloc, text)?;
        Ok(Stem { text })
    }

    /// The name of a file, by its ending.
    pub fn with(&self, alloc: Global, ending: &str) -> Result<String, NoMemory>
        ensures { IfOk result (λ name. string_bytes name ≡ self.now ++ ending.now) }
    {
        let mut name = String::from_str(alloc, self.text.as_str())?;
        name.push_str(ending)?;
        Ok(name)
    }
}
