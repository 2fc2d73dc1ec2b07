ghost use Rattle.std.specs.Prelude.{◌≡◌, IfOk};
ghost use Rattle.toml.specs.View.{view};
ghost use Rattle.tech_file.specs.Reading.{name_in, as_name};

use cell_num::{Name, NoMemory, is_name, lower};
use std::alloc::Global;
use toml::Value;

/// The name that a text is, in lower case.
pub fn name_in(alloc: Global, text: &str) -> Result<Option<Name>, NoMemory>
    ensures { IfOk result (λ n. n ≡ name_in text.now) }
{
    let name = lower(alloc, text.as_bytes())?;
    if is_name(name.as_slice()) {
        Ok(Some(name))
    } else {
        Ok(None)
    }
}

/// The name that a value is, in lower case.
pub fn as_name(alloc: Global, value: &Value) -> Result<Option<Name>, NoMemory>
    ensures { IfOk result (λ n. n ≡ as_name (view value.now)) }
{
    match value.as_str() {
        Some(text) => name_in(alloc, text),
        None => Ok(None),
    }
}
