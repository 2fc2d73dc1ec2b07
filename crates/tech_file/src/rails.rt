ghost use Rattle.std.specs.Prelude.{◌≡◌, ◌≢◌, IfOk, IfErr, Ok, Err, option_map};
ghost use Rattle.toml.specs.Data.{string, as_str};
ghost use Rattle.toml.specs.View.{table_view};
ghost use Rattle.tech_file.specs.declared.fault.TechFault.TheVariants as fault;
ghost use Rattle.tech_file.specs.Reading.{value_at, as_name, name_at, rails_of};

use crate::fault::{TechFault, bad_form};
use crate::keys::value_of;
use crate::names::name_in;
use cell_num::{Name, NoMemory};
use std::alloc::Global;
use std::marker::Model;
use toml::Table;

fn text_at<'a>(table: &'a Table, key: &str, usual: &'a str) -> Option<&'a str>
    ensures { option_map (λ s. s.now) result ≡ as_str (value_at key.now (string usual.now) (table_view table.now)) }
{
    match value_of(table, key) {
        Some(value) => value.as_str(),
        None => Some(usual),
    }
}

fn named_at(alloc: Global, table: &Table, key: &str, usual: &str) -> Result<Option<Name>, NoMemory>
    ensures { IfOk result (λ n. n ≡ as_name (value_at key.now (string usual.now) (table_view table.now))) }
{
    match text_at(table, key, usual) {
        Some(text) => name_in(alloc, text),
        None => Ok(None),
    }
}

fn name_at(alloc: Global, table: &Table, key: &str, usual: &str) -> Result<Name, TechFault>
    ensures name { IfOk result (λ n. name_at key.now usual.now (table_view table.now) ≡ Ok n) }
    ensures fault { IfErr result (λ f. f ≢ fault.NoMemory → name_at key.now usual.now (table_view table.now) ≡ Err f) }
{
    match named_at(alloc, table, key, usual)? {
        Some(name) => Ok(name),
        None => Err(bad_form(alloc, key)),
    }
}

/// The names of the rails, which differ.
#[derive(Drop)]
pub struct Rails {
    pub vdd: Name,
    pub gnd: Name,
}

impl Model for Rails {
    ghost use Rattle.tech_file.specs.Reading.{Rails as RailsOf};

    ghost Value = { RailsOf };

    ghost view = { λ v. record { vdd = v.vdd; gnd = v.gnd } };
}

/// The rails of a table.
pub fn read_rails(alloc: Global, table: &Table) -> Result<Rails, TechFault>
    ensures rails { IfOk result (λ r. rails_of (table_view table.now) ≡ Ok r) }
    ensures fault { IfErr result (λ f. f ≢ fault.NoMemory → rails_of (table_view table.now) ≡ Err f) }
{
    let vdd = name_at(alloc, table, "vdd", "vdd")?;
    let gnd = name_at(alloc, table, "gnd", "gnd")?;
    if vdd.as_slice() == gnd.as_slice() {
        return Err(bad_form(alloc, "gnd"));
    }
    Ok(Rails { vdd, gnd })
}
