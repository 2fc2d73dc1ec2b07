ghost use Rattle.std.specs.Prelude.{◌≡◌, ◌≤◌, ◌++◌, IfOk, OnOk, length};
ghost use Rattle.bound_log.specs.Fits.{ForSome, IsLogName};
ghost use Rattle.call_end.specs.declared.status.Status.TheVariants as status;
ghost use Rattle.call_end.specs.End.{reports};
ghost use Rattle.cell_commands.specs.Certificate.{CanBeWritten};
ghost use Rattle.cell_commands.specs.declared.certificate.Certificate.TheVariants as held;
ghost use Rattle.cell_commands.specs.Plan.{PlansTo, open_text, planned_text};
ghost use Rattle.trail_either.specs.Either.{EitherFits};

use crate::certificate::Certificate;
use crate::counts::put_counts;
use crate::evidence::too_many_pairings;
use crate::searched::Searched;
use call_end::{End, Status};
use call_words::Evidence;
use cell_inputs::Inputs;
use cell_num::{Bytes, NoMemory};
use cell_report::{log_unfinished, put_plan, put_unfinished};
use row_model::Arrangement;
use spice_net::Subckt;
use std::alloc::Global;
use trail_either::{TrailEvidence, write_either};

fn put_planned(
    out: &mut Bytes,
    cell: &Subckt,
    row: &Arrangement,
    certificate: &Certificate,
) -> Result<(), NoMemory>
    requires { length row.now ≤ 64 }
    ensures { OnOk result (out.new ≡ out.old ++ planned_text cell.now row.now certificate.now) }
{
    put_plan(out, &cell.name, &cell.nets, row)?;
    match certificate {
        Certificate::Log(_) => Ok(()),
        Certificate::Trails(trails) => put_counts(out, trails.lemmas(), trails.filled()),
    }
}

fn planned(
    alloc: Global,
    cell: &Subckt,
    row: &Arrangement,
    certificate: &Certificate,
) -> Result<End, NoMemory>
    requires { length row.now ≤ 64 }
    ensures { IfOk result (λ end. end ≡ reports status.Done (planned_text cell.now row.now certificate.now)) }
{
    let mut report = Status::Done.report(alloc)?;
    put_planned(&mut report, cell, row, certificate)?;
    Ok(End::says(alloc, Status::Done, report))
}

fn trails_unfinished(
    alloc: Global,
    cell: &Subckt,
    trails: &TrailEvidence,
    proved: u32,
) -> Result<End, NoMemory>
    requires name { IsLogName cell.now.name }
    requires fits { ForSome (λ k. EitherFits k trails.now) }
    ensures { IfOk result (λ end.
        end ≡ reports status.Unfinished (open_text cell.now proved (held.Trails trails.now))) }
{
    let text = write_either(alloc, &cell.name, trails)?;
    let mut report = Status::Unfinished.report(alloc)?;
    put_unfinished(&mut report, proved, trails.lemmas())?;
    report.extend(text.as_slice())?;
    Ok(End::says(alloc, Status::Unfinished, report))
}

// The counts, and the text of the certificate.
fn unfinished(
    alloc: Global,
    cell: &Subckt,
    certificate: Certificate,
    proved: u32,
) -> Result<End, NoMemory>
    requires name { IsLogName cell.now.name }
    requires fits { CanBeWritten certificate }
    ensures { IfOk result (λ end. end ≡ reports status.Unfinished (open_text cell.now proved certificate)) }
{
    match certificate {
        Certificate::Log(log) => log_unfinished(alloc, cell, log, proved),
        Certificate::Trails(trails) => {
            let end = trails_unfinished(alloc, cell, &trails, proved);
            drop(trails);
            end
        }
    }
}

/// The first least row of the inputs, found with such evidence; or what a search proves without a row; or a gate whose
/// fingers pair in too many ways.
pub fn plan(alloc: Global, inputs: &Inputs, evidence: Evidence) -> Result<End, NoMemory>
    ensures { IfOk result (PlansTo evidence inputs.now) }
{
    inputs.show_limits();
    let searched = Searched::of(alloc, inputs, evidence)?;
    match searched {
        Searched::Found { row, certificate } => {
            let end = planned(alloc, &inputs.cell, &row, &certificate);
            drop(certificate);
            end
        }
        Searched::Open {
            certificate,
            proved,
        } => unfinished(alloc, &inputs.cell, certificate, proved),
        Searched::Crowded { gate } => too_many_pairings(alloc, &inputs.cell, gate),
    }
}
