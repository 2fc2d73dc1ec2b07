// `make` with `--low`: of all rows that can be wired with the fewest gaps the first on the fewest tracks, drawn.
ghost use Rattle.std.specs.Prelude.{◌≡◌, IfOk};
ghost use Rattle.row_place.specs.Places.{placement_of};
ghost use Rattle.cell_make.specs.Low.{IsLowest, IsOpenRow};
ghost use Rattle.cell_make.specs.LowRows.{CanBeRouted, IsRinged};
ghost use Rattle.cell_make.specs.LowTracks.{ProvesTracks};
ghost use Rattle.cell_make.specs.LowUnwired.{IsUnwiredEnd};
ghost use Rattle.cell_commands.specs.Low.{MakesLowTo};
ghost use Rattle.cell_commands.specs.Relisted.{IsFoundFor, kind_of};

use crate::certificate::Certificate;
use crate::drawing::drawn;
use crate::evidence::too_many_pairings;
use crate::low_end::{open_fewest, ring_end, row_of};
use crate::low_evidence::low_evidence;
use crate::make_end::row_end;
use crate::making::open_end;
use crate::relisted::beside;
use crate::searched::Searched;
use call_end::{End, Stem};
use call_words::Evidence;
use cell_inputs::{Inputs, Style};
use cell_make::{DrawOutcome, LowPlanned};
use cell_num::NoMemory;
use channel_route::{Ring, Routing};
use row_model::Arrangement;
use row_place::Placement;
use std::alloc::Global;
use track_log::TrackCertificate;

// The lowest row, drawn. The certificate of the gaps was found for the first least row.
fn lowest(
    alloc: Global,
    inputs: &Inputs,
    stem: &Stem,
    style: Style,
    least: &Arrangement,
    gaps: Certificate,
    placement: Placement,
    routing: Routing,
    tracks: &TrackCertificate,
) -> Result<End, NoMemory>
    requires found { IsFoundFor inputs.now least.now gaps }
    requires routed { CanBeRouted style.wiring inputs.now least.now }
    requires placed { placement ≡ placement_of placement.row }
    requires lowest { IsLowest style.wiring inputs.now placement.row routing tracks.now }
    requires proves { ProvesTracks style.wiring inputs.now tracks.now }
    ensures { IfOk result (MakesLowTo (kind_of gaps) style inputs.now stem.now) }
{
    inputs.show_limits();
    let listing = beside(alloc, inputs, least, &placement.row, gaps)?;
    let evidence = low_evidence(alloc, style.wiring, &inputs.cell, stem, listing, tracks)?;
    let came = DrawOutcome::lowest(alloc, inputs, style, placement, routing)?;
    let end = row_end(alloc, inputs, stem, style, row_of(&came), &came, evidence);
    drop(came);
    end
}

// The row that can be wired with the fewest gaps, drawn, where the search for the lowest one is open.
fn wired(
    alloc: Global,
    inputs: &Inputs,
    stem: &Stem,
    style: Style,
    least: &Arrangement,
    gaps: Certificate,
    row: &Arrangement,
    tracks: &TrackCertificate,
) -> Result<End, NoMemory>
    requires found { IsFoundFor inputs.now least.now gaps }
    requires routed { CanBeRouted style.wiring inputs.now least.now }
    requires open { IsOpenRow style.wiring inputs.now least.now row.now tracks.now }
    requires proves { ProvesTracks style.wiring inputs.now tracks.now }
    ensures { IfOk result (MakesLowTo (kind_of gaps) style inputs.now stem.now) }
{
    inputs.show_limits();
    let listing = beside(alloc, inputs, least, row, gaps)?;
    let evidence = low_evidence(alloc, style.wiring, &inputs.cell, stem, listing, tracks)?;
    drawn(alloc, inputs, stem, style, row, evidence)
}

// The cycle of the first least row, where no row that can be wired is known.
fn ringed(
    alloc: Global,
    inputs: &Inputs,
    stem: &Stem,
    style: Style,
    least: &Arrangement,
    gaps: Certificate,
    ring: &Ring,
    tracks: &TrackCertificate,
    none_wired: bool,
) -> Result<End, NoMemory>
    requires found { IsFoundFor inputs.now least.now gaps }
    requires routed { CanBeRouted style.wiring inputs.now least.now }
    requires ringed { IsRinged style.wiring inputs.now least.now ring.now }
    requires unwired { IsUnwiredEnd style.wiring inputs.now tracks.now none_wired }
    requires proves { ProvesTracks style.wiring inputs.now tracks.now }
    ensures { IfOk result (MakesLowTo (kind_of gaps) style inputs.now stem.now) }
{
    inputs.show_limits();
    let evidence = low_evidence(alloc, style.wiring, &inputs.cell, stem, gaps, tracks)?;
    let fewest = open_fewest(style.wiring, tracks);
    ring_end(alloc, inputs, ring, evidence, none_wired, fewest)
}

// After the first least row was found.
fn found(
    alloc: Global,
    inputs: &Inputs,
    stem: &Stem,
    style: Style,
    least: &Arrangement,
    gaps: Certificate,
) -> Result<End, NoMemory>
    requires { IsFoundFor inputs.now least.now gaps }
    ensures { IfOk result (MakesLowTo (kind_of gaps) style inputs.now stem.now) }
{
    match LowPlanned::of(alloc, inputs, style.wiring, least)? {
        LowPlanned::Found {
            placement,
            routing,
            certificate: tracks,
        } => {
            let end = lowest(
                alloc, inputs, stem, style, least, gaps, placement, routing, &tracks,
            );
            drop(tracks);
            end
        }
        LowPlanned::Open {
            row,
            certificate: tracks,
        } => {
            let end = wired(alloc, inputs, stem, style, least, gaps, &row, &tracks);
            drop(tracks);
            end
        }
        LowPlanned::Unwired {
            ring,
            certificate: tracks,
            none_wired,
        } => {
            let end = ringed(
                alloc, inputs, stem, style, least, gaps, &ring, &tracks, none_wired,
            );
            drop(tracks);
            end
        }
    }
}

/// Of all rows that can be wired with the fewest gaps the first on the fewest tracks, drawn in the style with the first
/// of its routings on these tracks, with the evidence of the first least row and that of the tracks. Where the budget
/// is spent before it is found: the first row that can be wired with the fewest gaps, with how many tracks each such
/// row takes at least. Where no row can be wired, or none is found: a cycle of the first least row. Where no least row
/// is found: what `make` leaves.
pub fn make_low(
    alloc: Global,
    inputs: &Inputs,
    stem: &Stem,
    style: Style,
    evidence: Evidence,
) -> Result<End, NoMemory>
    ensures { IfOk result (MakesLowTo evidence style inputs.now stem.now) }
{
    inputs.show_limits();
    let searched = Searched::of(alloc, inputs, evidence)?;
    match searched {
        Searched::Found { row, certificate } => {
            found(alloc, inputs, stem, style, &row, certificate)
        }
        Searched::Open {
            certificate,
            proved,
        } => open_end(alloc, &inputs.cell, stem, certificate, proved),
        Searched::Crowded { gate } => too_many_pairings(alloc, &inputs.cell, gate),
    }
}
