ghost use Rattle.std.specs.Prelude.{◌≡◌, ◌≢◌, ◌<◌, IfOk, IfErr, Ok, Err, pos};
ghost use Rattle.toml.specs.Data.{integer, as_integer};
ghost use Rattle.toml.specs.View.{table_view};
ghost use Rattle.tech_file.specs.declared.fault.TechFault.TheVariants as fault;
ghost use Rattle.tech_file.specs.Reading.{value_at, number_at, numbers_of};

use crate::fault::{TechFault, bad_form};
use crate::keys::value_of;
use crate::words::copy;
use std::alloc::Global;
use std::marker::Model;
use toml::Table;

/// Which integers a key takes: those from `least` to `most` that are multiples of `step`. `plain` is
/// taken where the key is absent.
#[derive(Drop)]
pub struct Limits {
    plain: u32,
    least: u32,
    most: u32,
    step: u32,
}

impl Model for Limits {
    ghost use Rattle.tech_file.specs.Reading.{Limits as LimitsOf};

    ghost Value = { LimitsOf };

    ghost view = { λ l. record { plain = l.plain; least = l.least; most = l.most; step = l.step } };
}

/// A lambda in nanometres. It is even, since a grid unit is half of it.
const LAMBDA_NM: Limits = Limits {
    plain: 300,
    least: 20,
    most: 2_000,
    step: 2,
};

/// The greatest width of a finger, in grid units.
const WIDTH: Limits = Limits {
    plain: 40,
    least: 12,
    most: 400,
    step: 1,
};

/// The most nodes of a search.
const BUDGET: Limits = Limits {
    plain: 200_000,
    least: 1,
    most: 1_000_000,
    step: 1,
};

/// The height of a cell, in grid units.
const HEIGHT: Limits = Limits {
    plain: 0,
    least: 0,
    most: 4_000,
    step: 1,
};

fn integer_at(table: &Table, key: &str, plain: u32) -> Option<i64>
    ensures { result ≡ as_integer (value_at key.now (integer (pos plain)) (table_view table.now)) }
{
    match value_of(table, key) {
        Some(value) => value.as_integer(),
        None => Some(i64::from(plain)),
    }
}

// The number of a key.
fn number_at(alloc: Global, table: &Table, key: &str, limits: &Limits) -> Result<u32, TechFault>
    requires { 0 < limits.now.step }
    ensures number { IfOk result (λ n. number_at key.now limits.now (table_view table.now) ≡ Ok n) }
    ensures fault { IfErr result (λ f. f ≢ fault.NoMemory →
        number_at key.now limits.now (table_view table.now) ≡ Err f) }
{
    let Some(value) = integer_at(table, key, limits.plain) else {
        return Err(bad_form(alloc, key));
    };
    if value < i64::from(limits.least)
        || i64::from(limits.most) < value
        || value % i64::from(limits.step) != 0
    {
        return Err(TechFault::Range {
            name: copy(alloc, key)?,
            value,
        });
    }
    Ok(value as u32)
}

/// The integers of a technology.
#[derive(Drop)]
pub struct Numbers {
    pub lambda_nm: u32,
    pub wmax_p: u32,
    pub wmax_n: u32,
    pub budget: u64,
    pub height: u32,
}

impl Model for Numbers {
    ghost use Rattle.tech_file.specs.Reading.{Numbers as NumbersOf};

    ghost Value = { NumbersOf };

    ghost view = { λ v. record {
      lambda_nm = v.lambda_nm;
      wmax_p = v.wmax_p;
      wmax_n = v.wmax_n;
      budget = v.budget;
      height = v.height;
    } };
}

/// The integers of a table.
pub fn read_numbers(alloc: Global, table: &Table) -> Result<Numbers, TechFault>
    ensures numbers { IfOk result (λ n. numbers_of (table_view table.now) ≡ Ok n) }
    ensures fault { IfErr result (λ f. f ≢ fault.NoMemory → numbers_of (table_view table.now) ≡ Err f) }
{
    let lambda_nm = number_at(alloc, table, "lambda_nm", &LAMBDA_NM)?;
    let wmax_p = number_at(alloc, table, "wmax_p", &WIDTH)?;
    let wmax_n = number_at(alloc, table, "wmax_n", &WIDTH)?;
    let budget = number_at(alloc, table, "budget", &BUDGET)?;
    let height = number_at(alloc, table, "height", &HEIGHT)?;
    Ok(Numbers {
        lambda_nm,
        wmax_p,
        wmax_n,
        budget: u64::from(budget),
        height,
    })
}
