ghost use Rattle.std.specs.Prelude.{◌≡◌, ◌≢◌, ◌≤◌, IfOk, IfErr, Ok, Err, length};
ghost use Rattle.toml.specs.View.{table_view};
ghost use Rattle.tech_file.specs.declared.fault.TechFault.TheVariants as fault;
ghost use Rattle.cell_num.specs.Steps.{or_fault};
ghost use Rattle.tech_file.specs.Reading.{table_of, known_alone, technology_of, technology};

use crate::fault::TechFault;
use crate::keys::unknown_key;
use crate::models::read_models;
use crate::number::read_numbers;
use crate::rails::read_rails;
use crate::tech::Tech;
use crate::words::copy;
use cell_num::MOST_BYTES;
use std::alloc::Global;
use toml::Table;

#[tactic(auto, using(crate::proofs::Documents::table_of_text, crate::proofs::Documents::no_text))]
fn read_table(alloc: Global, bytes: &[u8]) -> Result<Table, TechFault>
    ensures table { IfOk result (λ t. or_fault (table_of bytes.now) fault.Text ≡ Ok (table_view t)) }
    ensures fault { IfErr result (λ f. f ≢ fault.NoMemory → or_fault (table_of bytes.now) fault.Text ≡ Err f) }
{
    let Ok(text) = str::from_utf8(bytes) else {
        return Err(TechFault::Text);
    };
    match toml::table_from_str(alloc, text) {
        Ok(table) => Ok(table),
        Err(error) if error.is_memory() => Err(TechFault::NoMemory),
        Err(_) => Err(TechFault::Text),
    }
}

fn look_at_keys(alloc: Global, table: &Table) -> Result<(), TechFault>
    ensures known { IfOk result (λ _. known_alone (table_view table.now) ≡ Ok tt) }
    ensures fault { IfErr result (λ f. f ≢ fault.NoMemory → known_alone (table_view table.now) ≡ Err f) }
{
    match unknown_key(table) {
        Some(key) => Err(TechFault::Key {
            name: copy(alloc, key)?,
        }),
        None => Ok(()),
    }
}

fn technology_of(alloc: Global, table: &Table) -> Result<Tech, TechFault>
    ensures technology { IfOk result (λ tech. technology_of (table_view table.now) ≡ Ok tech) }
    ensures fault { IfErr result (λ f. f ≢ fault.NoMemory → technology_of (table_view table.now) ≡ Err f) }
{
    look_at_keys(alloc, table)?;
    let numbers = read_numbers(alloc, table)?;
    let rails = read_rails(alloc, table)?;
    let models = read_models(alloc, table)?;
    Ok(Tech {
        lambda_nm: numbers.lambda_nm,
        wmax_p: numbers.wmax_p,
        wmax_n: numbers.wmax_n,
        vdd: rails.vdd,
        gnd: rails.gnd,
        p_models: models.p,
        n_models: models.n,
        budget: numbers.budget,
        height: numbers.height,
    })
}

/// Reads a technology file, a TOML document. The names in it are made lower case, and a key that is
/// absent has its plain value.
///
/// The first fault is reported, in this order: `Text`, `Key`, then by key `Form` or `Range` of
/// `lambda_nm`, `wmax_p`, `wmax_n`, `budget` and `height`, `Form` of `vdd` and `gnd` (also where both
/// are one name), `Form` of `p_models` and `n_models` (also where they share a name). `NoMemory` may
/// come at any step.
#[tactic(auto, using(crate::proofs::Told::technology_never))]
pub fn read_tech(alloc: Global, bytes: &[u8]) -> Result<Tech, TechFault>
    requires { length bytes.now ≤ MOST_BYTES }
    ensures technology { IfOk result (λ tech. technology bytes.now ≡ Ok tech) }
    ensures fault { IfErr result (λ f. f ≢ fault.NoMemory → technology bytes.now ≡ Err f) }

    // Memory alone makes it NoMemory: the definition never answers so.
    ensures told { technology bytes.now ≢ Err fault.NoMemory }
{
    let table = read_table(alloc, bytes)?;
    technology_of(alloc, &table)
}
