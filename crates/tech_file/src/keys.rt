ghost use Rattle.std.specs.Prelude.{◌≡◌, not, find, option_map, string_bytes, bytes_eq};
ghost use Rattle.std.specs.List.{list_any};
ghost use Rattle.std.specs.BTreeMap.{keys, IsOrdered};
ghost use Rattle.std.specs.String.{string_cmp};
ghost use Rattle.toml.specs.Data.{get_member};
ghost use Rattle.toml.specs.View.{table_view, view};
ghost use Rattle.tech_file.specs.Reading.{is_known, least_unknown};

use toml::{Table, Value};

/// All keys of a technology.
const KEYS: [&str; 9] = [
    "lambda_nm",
    "wmax_p",
    "wmax_n",
    "budget",
    "height",
    "vdd",
    "gnd",
    "p_models",
    "n_models",
];

fn among(keys: &[&str], key: &str) -> bool
    ensures { result ≡ list_any (λ other. bytes_eq key.now other.now) keys.now }
{
    keys.iter().any(|other| key == *other)
}

fn known(key: &str) -> bool
    ensures { result ≡ is_known key.now }
{
    among(&KEYS, key)
}

// The first unknown key in the order of a table, whose keys ascend by their bytes.
fn first_unknown(table: &Table) -> Option<&String>
    ensures first { option_map (λ key. key.now) result ≡ find (λ key.
        not (is_known (string_bytes key))) (keys table.now) }
    ensures ordered { IsOrdered string_cmp table.now }
{
    table.keys().find(|key| !known(key.as_str()))
}

/// The least key of a table, by its bytes, that no technology has.
pub fn unknown_key(table: &Table) -> Option<&str>
    ensures { option_map (λ key. key.now) result ≡ least_unknown (table_view table.now) }
{
    match first_unknown(table) {
        Some(key) => Some(key.as_str()),
        None => None,
    }
}

/// The value of a key.
pub fn value_of<'a>(table: &'a Table, key: &str) -> Option<&'a Value>
    ensures { option_map (λ v. view v.now) result ≡ get_member key.now (table_view table.now) }
{
    table.get(key)
}
