ghost use Rattle.std.specs.Prelude.{IfOk};
ghost use Rattle.call_words.specs.declared.evidence.Evidence.TheVariants.{Log, Trails};
ghost use Rattle.cell_commands.specs.Searched.{IsSearched};

use crate::certificate::Certificate;
use call_words::Evidence;
use cell_inputs::Inputs;
use cell_make::Planned;
use cell_num::{NetNo, NoMemory};
use row_model::Arrangement;
use std::alloc::Global;
use trail_either::{EitherStop, search_either};

/// What a search for a row and its evidence results in.
#[derive(Drop)]
pub enum Searched {
    /// The first least row, and its evidence.
    Found {
        row: Arrangement,
        certificate: Certificate,
    },
    /// The evidence proves that each row has at least `proved` gaps. The search for it spent its budget. Or, by trails,
    /// no search with pools proves more, and a later search spent its budget or each row has more gaps.
    Open {
        certificate: Certificate,
        proved: u32,
    },
    /// There are too many ways to pair the fingers of the gate: the search for a certificate by trails ends at it, and
    /// lists lemmas of no version.
    Crowded {
        gate: NetNo,
    },
}

fn by_log(alloc: Global, inputs: &Inputs) -> Result<Searched, NoMemory>
    ensures { IfOk result (IsSearched Log inputs.now) }
{
    match Planned::of(alloc, inputs)? {
        Planned::Found { row, log } => Ok(Searched::Found {
            row,
            certificate: Certificate::Log(log),
        }),
        Planned::Unfinished { log, proved } => Ok(Searched::Open {
            certificate: Certificate::Log(log),
            proved,
        }),
    }
}

fn by_trails(alloc: Global, inputs: &Inputs) -> Result<Searched, NoMemory>
    ensures { IfOk result (IsSearched Trails inputs.now) }
{
    inputs.show_limits();
    match search_either(alloc, &inputs.fingers, inputs.budget()) {
        Ok(found) => Ok(Searched::Found {
            row: found.row,
            certificate: Certificate::Trails(found.evidence),
        }),
        Err(EitherStop::Unfinished { evidence, proved }) => Ok(Searched::Open {
            certificate: Certificate::Trails(evidence),
            proved,
        }),
        Err(EitherStop::Choices { gate }) => Ok(Searched::Crowded { gate }),
        Err(EitherStop::NoMemory) => Err(NoMemory),
    }
}

impl Searched {
    /// The first least row of the fingers with such evidence; or what a search proves without a row; or a gate whose
    /// fingers pair in too many ways.
    pub fn of(alloc: Global, inputs: &Inputs, evidence: Evidence) -> Result<Searched, NoMemory>
        ensures { IfOk result (IsSearched evidence inputs.now) }
    {
        match evidence {
            Evidence::Log => by_log(alloc, inputs),
            Evidence::Trails => by_trails(alloc, inputs),
        }
    }
}
