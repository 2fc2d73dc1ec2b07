ghost use Rattle.std.specs.Prelude.{◌≡◌, ◌≢◌, IfOk, IfErr, Ok, Err, Some, map, bytes_eq, option_and_then};
ghost use Rattle.std.specs.List.{list_any};
ghost use Rattle.toml.specs.Data.{array};
ghost use Rattle.toml.specs.View.{table_view, view, items_view};
ghost use Rattle.tech_file.specs.declared.fault.TechFault.TheVariants as fault;
ghost use Rattle.tech_file.specs.Reading.{value_at, names_in, if_few, as_models, texts, models_at, share, models_of};

use crate::fault::{TechFault, bad_form};
use crate::keys::value_of;
use crate::names::as_name;
use crate::tech::{PLAIN_N, PLAIN_P};
use crate::words::copies;
use cell_num::{Name, Names, NoMemory};
use std::alloc::Global;
use std::marker::Model;
use toml::{Table, Value};

/// The most models of one kind.
const MOST_MODELS: usize = 16;

fn names_in(alloc: Global, values: &[Value]) -> Result<Option<Names>, NoMemory>
    ensures { IfOk result (λ ns. ns ≡ names_in (items_view values.now)) }
{
    let mut names = Names::new(alloc);
    'values: for value in values {
        let Some(name) = as_name(alloc, value)? else {
            return Ok(None);
        };
        names.push(name)?;
    }
    Ok(Some(names))
}

fn few_names(alloc: Global, values: &[Value]) -> Result<Option<Names>, NoMemory>
    ensures { IfOk result (λ ns. ns ≡ option_and_then if_few (names_in (items_view values.now))) }
{
    let Some(names) = names_in(alloc, values)? else {
        return Ok(None);
    };
    if 1 <= names.len() && names.len() <= MOST_MODELS {
        Ok(Some(names))
    } else {
        Ok(None)
    }
}

fn as_models(alloc: Global, value: &Value) -> Result<Option<Names>, NoMemory>
    ensures { IfOk result (λ ns. ns ≡ as_models (view value.now)) }
{
    match value.as_array() {
        Some(values) => few_names(alloc, values.as_slice()),
        None => Ok(None),
    }
}

fn listed_at(
    alloc: Global,
    table: &Table,
    key: &str,
    usual: &[&str],
) -> Result<Option<Names>, NoMemory>
    requires { as_models (array (texts (map (λ text. text.now) usual.now))) ≡ Some (map (λ text. text.now) usual.now) }
    ensures { IfOk result (λ ns. ns ≡ as_models (value_at key.now (array (texts (map (λ text.
        text.now) usual.now))) (table_view table.now))) }
{
    match value_of(table, key) {
        Some(value) => as_models(alloc, value),
        None => {
            let names = copies(alloc, usual)?;
            Ok(Some(names))
        }
    }
}

fn models_at(alloc: Global, table: &Table, key: &str, usual: &[&str]) -> Result<Names, TechFault>
    requires { as_models (array (texts (map (λ text. text.now) usual.now))) ≡ Some (map (λ text. text.now) usual.now) }
    ensures names { IfOk result (λ ns. models_at key.now (map (λ text.
        text.now) usual.now) (table_view table.now) ≡ Ok ns) }
    ensures fault { IfErr result (λ f. f ≢ fault.NoMemory → models_at key.now (map (λ text.
        text.now) usual.now) (table_view table.now) ≡ Err f) }
{
    match listed_at(alloc, table, key, usual)? {
        Some(names) => Ok(names),
        None => Err(bad_form(alloc, key)),
    }
}

fn has(names: &[Name], name: &[u8]) -> bool
    ensures { result ≡ list_any (λ other. bytes_eq other name.now) names.now }
{
    names.iter().any(|other| other.as_slice() == name)
}

fn shared(p: &[Name], n: &[Name]) -> bool
    ensures { result ≡ share p.now n.now }
{
    n.iter().any(|name| has(p, name.as_slice()))
}

/// The models of both kinds of transistors, which share no name.
#[derive(Drop)]
pub struct Models {
    pub p: Names,
    pub n: Names,
}

impl Model for Models {
    ghost use Rattle.tech_file.specs.Reading.{Models as ModelsOf};

    ghost Value = { ModelsOf };

    ghost view = { λ v. record { p = v.p; n = v.n } };
}

/// The models of a table.
pub fn read_models(alloc: Global, table: &Table) -> Result<Models, TechFault>
    ensures models { IfOk result (λ m. models_of (table_view table.now) ≡ Ok m) }
    ensures fault { IfErr result (λ f. f ≢ fault.NoMemory → models_of (table_view table.now) ≡ Err f) }
{
    let p = models_at(alloc, table, "p_models", &PLAIN_P)?;
    let n = models_at(alloc, table, "n_models", &PLAIN_N)?;
    if shared(p.as_slice(), n.as_slice()) {
        return Err(bad_form(alloc, "n_models"));
    }
    Ok(Models { p, n })
}
