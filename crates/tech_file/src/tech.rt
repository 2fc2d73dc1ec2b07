ghost use Rattle.std.specs.Prelude.{◌≡◌, ◌≤◌, ◌/◌, [], IfOk, Ok};

use crate::words::{copies, copy};
use cell_num::{Name, Names, NoMemory};
use std::alloc::{AllocError, Global};
use std::marker::Model;

/// A technology. Contracts see it as the record of its fields, which keep the limits that are said
/// here.
#[derive(Debug, Drop)]
pub struct Tech {
    /// In nanometres, from 20 to 2,000 and even. A grid unit is half a lambda.
    pub lambda_nm: u32,
    /// The greatest width of a P finger, in grid units, from 12 to 400.
    pub wmax_p: u32,
    /// The greatest width of an N finger, in grid units, from 12 to 400.
    pub wmax_n: u32,
    /// The upper rail, a name in lower case.
    pub vdd: Name,
    /// The lower rail, a name in lower case other than `vdd`.
    pub gnd: Name,
    /// The models of P transistors, 1 to 16 names in lower case.
    pub p_models: Names,
    /// The models of N transistors, 1 to 16 names in lower case, none of them in `p_models`.
    pub n_models: Names,
    /// The most nodes that a search goes through, from 1 to 1,000,000.
    pub budget: u64,
    /// The height of every cell, in grid units, at most 4,000; or 0, where each cell is as high as it needs.
    pub height: u32,
}

impl Model for Tech {
    ghost use Rattle.tech_file.specs.Technology.{Technology, IsTechnology};

    ghost Value = { Technology };

    ghost view = { λ t. record {
      lambda_nm = t.lambda_nm;
      wmax_p = t.wmax_p;
      wmax_n = t.wmax_n;
      vdd = t.vdd;
      gnd = t.gnd;
      p_models = t.p_models;
      n_models = t.n_models;
      budget = t.budget;
      height = t.height;
    } };

    ghost invariant = { λ t. IsTechnology (record {
      lambda_nm = t.lambda_nm;
      wmax_p = t.wmax_p;
      wmax_n = t.wmax_n;
      vdd = t.vdd;
      gnd = t.gnd;
      p_models = t.p_models;
      n_models = t.n_models;
      budget = t.budget;
      height = t.height;
    }) };
}

impl Clone for Tech {
    ghost is_clone = { λ tech copy. copy ≡ tech };

    fn clone(&self) -> Result<Tech, AllocError> {
        self.show_limits();
        Ok(Tech {
            lambda_nm: self.lambda_nm,
            wmax_p: self.wmax_p,
            wmax_n: self.wmax_n,
            vdd: self.vdd.clone()?,
            gnd: self.gnd.clone()?,
            p_models: self.p_models.clone()?,
            n_models: self.n_models.clone()?,
            budget: self.budget,
            height: self.height,
        })
    }
}

/// The models of P transistors where a technology file names none.
pub const PLAIN_P: [&str; 3] = ["p", "pmos", "pch"];

/// The models of N transistors where a technology file names none.
pub const PLAIN_N: [&str; 3] = ["n", "nmos", "nch"];

impl Tech {
    ghost use Rattle.tech_file.specs.Technology.{IsTechnology, plain};
    ghost use Rattle.tech_file.specs.Reading.{technology};

    /// The technology that holds where nothing else is said.
    #[tactic(auto, using(crate::proofs::Limits::plain_holds, crate::proofs::Empty::empty_is_plain))]
    pub fn plain(alloc: Global) -> Result<Tech, NoMemory>
        ensures plain { IfOk result (λ tech. tech ≡ plain) }
        ensures empty_file { IfOk result (λ tech. technology [] ≡ Ok tech) }
    {
        let vdd = copy(alloc, "vdd")?;
        let gnd = copy(alloc, "gnd")?;
        let p_models = copies(alloc, &PLAIN_P)?;
        let n_models = copies(alloc, &PLAIN_N)?;
        Ok(Tech {
            lambda_nm: 300,
            wmax_p: 40,
            wmax_n: 40,
            vdd,
            gnd,
            p_models,
            n_models,
            budget: 200_000,
            height: 0,
        })
    }

    /// Shows a caller's proof the limits of the fields; it does nothing.
    pub fn show_limits(&self)
        ensures { IsTechnology self.now }
    {
        let _ = &self.lambda_nm;
    }

    /// The nanometres of a grid unit, half a lambda.
    pub fn unit_nm(&self) -> u32
        ensures is { result ≡ self.now.lambda_nm / 2 }
        ensures least { 10 ≤ result }
        ensures most { result ≤ 1000 }
    {
        self.show_limits();
        self.lambda_nm / 2
    }
}
