ghost use Rattle.std.specs.Prelude.{◌≡◌, IfOk};
ghost use Rattle.cell_make.specs.Rows.{placement_in};
ghost use Rattle.cell_commands.specs.Evidence.{shown};
ghost use Rattle.cell_commands.specs.Low.{open_fewest};
ghost use Rattle.cell_commands.specs.LowEnds.{IsRingEnd};

use crate::evidence::RowEvidence;
use crate::make_end::evidence_end;
use call_end::{End, Status};
use cell_inputs::{Inputs, Wiring};
use cell_make::DrawOutcome;
use cell_num::NoMemory;
use cell_report::{cycle_report, open_ring_report};
use channel_route::Ring;
use row_model::Arrangement;
use std::alloc::Global;
use track_log::TrackCertificate;

/// The row that was drawn.
pub(crate) fn row_of(came: &DrawOutcome) -> &Arrangement
    ensures { result.now ≡ (placement_in came.now).row }
{
    match came {
        DrawOutcome::Drawn { placement, .. } => &placement.row,
        DrawOutcome::Cyclic { placement, .. } => &placement.row,
        DrawOutcome::Tall { placement, .. } => &placement.row,
    }
}

/// The tracks to report where no row that can be wired is known.
pub(crate) fn open_fewest(wiring: Wiring, tracks: &TrackCertificate) -> u32
    ensures { result ≡ open_fewest wiring tracks.now }
{
    match wiring {
        Wiring::Straight => 0,
        Wiring::Doglegs => tracks.tracks,
    }
}

/// The end where no row that can be wired is known: the evidence of the first least row, and its cycle. Unless no row
/// can be wired, the search is unfinished, and that many tracks are reported.
pub(crate) fn ring_end(
    alloc: Global,
    inputs: &Inputs,
    ring: &Ring,
    evidence: RowEvidence,
    none_wired: bool,
    fewest: u32,
) -> Result<End, NoMemory>
    ensures { IfOk result (IsRingEnd inputs.now (shown evidence) none_wired fewest ring.now) }
{
    let nets = &inputs.cell.nets;
    if none_wired {
        let report = cycle_report(alloc, nets, ring)?;
        Ok(evidence_end(Status::Cycle, evidence.files, report))
    } else {
        let report = open_ring_report(alloc, nets, ring, fewest)?;
        Ok(evidence_end(Status::Unfinished, evidence.files, report))
    }
}
