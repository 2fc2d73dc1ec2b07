ghost use Rattle.std.specs.Prelude.{◌≡◌, IfOk, MatchOption};
ghost use Rattle.row_model.specs.Gaps.{gaps_of};
ghost use Rattle.row_state.specs.Start.{AreKinds};
ghost use Rattle.cell_inputs.specs.declared.style.Wiring.TheVariants.{Straight as OfNets};
ghost use Rattle.cell_make.specs.Low.{IsLowPlanned};
ghost use Rattle.cell_make.specs.LowEnded.{planned_by};
ghost use Rattle.cell_make.specs.LowRows.{CanBeRouted, IsLeast, IsLeastWired, IsRinged, IsWired};
ghost use Rattle.cell_make.specs.LowWired.{AreBelow, IsPlannedBy};

use crate::low_pieces::by_pieces;
use crate::low_ring::ring_of;
use crate::low_wired::LowWired;
use cell_inputs::{Inputs, Wiring};
use cell_num::NoMemory;
use channel_route::{Ring, Routing};
use row_cycles::CycleLemmas;
use row_model::{Arrangement, gaps};
use row_place::Placement;
use row_state::{Component, Kinds, kinds};
use std::alloc::Global;
use track_log::TrackCertificate;
use track_search::{Lowest, lowest_row, sound_pins};

/// What the search for the lowest row results in: of all rows that can be wired with the fewest gaps, the first on the
/// fewest tracks.
#[derive(Drop)]
pub enum LowPlanned {
    /// The lowest row on its lines, the first of its routings on the fewest tracks, and a certificate that no row with
    /// as few gaps takes fewer, and that none with fewer gaps can be wired.
    Found {
        placement: Placement,
        routing: Routing,
        certificate: TrackCertificate,
    },
    /// The budget was spent on its tracks: a row that can be wired with the fewest gaps, the first one where the search
    /// began at the first least row. The certificate proves how many tracks each such row takes at least.
    Open {
        row: Arrangement,
        certificate: TrackCertificate,
    },
    /// A cycle of the least row, where no row that can be wired is known: there is none, or the budget was spent on the
    /// search for one. The certificate proves that none is wired, within its gaps, or nothing, with no tracks. With
    /// doglegs `none_wired` is false: only rows with the fewest gaps are searched, on fewer tracks than the cell has
    /// nets, or the budget was spent. Then the certificate proves how many tracks each of these takes at least.
    Unwired {
        ring: Ring,
        certificate: TrackCertificate,
        none_wired: bool,
    },
}

// A copy, for what is planned.
pub(crate) fn copied(row: &Arrangement) -> Result<Arrangement, NoMemory>
    ensures { IfOk result (λ copy. copy ≡ row.now) }
{
    Ok(row.clone()?)
}

impl LowPlanned {
    // What the search by tracks ended with, as the certificate of its gaps and tracks.
    fn of_lowest(lowest: Lowest, row: Arrangement, gaps: u32, cycles: CycleLemmas) -> LowPlanned
        ensures { result ≡ planned_by lowest row gaps cycles }
    {
        match lowest {
            Lowest::Found {
                placement,
                routing,
                lemmas,
            } => {
                let tracks = routing.tracks;
                LowPlanned::Found {
                    placement,
                    routing,
                    certificate: TrackCertificate {
                        gaps,
                        tracks,
                        cycles,
                        lemmas,
                    },
                }
            }
            Lowest::Open { proved, lemmas } => LowPlanned::Open {
                row,
                certificate: TrackCertificate {
                    gaps,
                    tracks: proved,
                    cycles,
                    lemmas,
                },
            },
        }
    }

    // The lowest row, by a row that can be wired with the fewest gaps.
    fn by_tracks(
        alloc: Global,
        inputs: &Inputs,
        kinds: &Kinds,
        row: Arrangement,
        cycles: CycleLemmas,
    ) -> Result<LowPlanned, NoMemory>
        requires kinds { AreKinds inputs.now.fingers kinds.now }
        requires wired { IsLeastWired OfNets inputs.now row }
        requires below { AreBelow inputs.now kinds.now (gaps_of row) cycles }
        ensures { IfOk result (IsPlannedBy inputs.now row) }
    {
        inputs.show_limits();
        kinds.show_limits();
        sound_pins();
        let gaps = gaps(&row);
        let lowest = lowest_row(
            alloc,
            &Component,
            &inputs.cell.pins,
            kinds,
            gaps,
            inputs.fingers.nets,
            inputs.budget(),
        )?;
        Ok(LowPlanned::of_lowest(lowest, row, gaps, cycles))
    }

    // The same with straight trunks by a least row that can be wired.
    fn by_least(
        alloc: Global,
        inputs: &Inputs,
        kinds: &Kinds,
        row: &Arrangement,
    ) -> Result<LowPlanned, NoMemory>
        requires least { IsLeast inputs.now.fingers row.now }
        requires wired { IsWired OfNets inputs.now row.now }
        requires kinds { AreKinds inputs.now.fingers kinds.now }
        ensures { IfOk result (IsLowPlanned OfNets inputs.now row.now) }
    {
        let wired = copied(row)?;
        let cycles = CycleLemmas::new(alloc);
        let planned = LowPlanned::by_tracks(alloc, inputs, kinds, wired, cycles)?;
        Ok(planned)
    }

    // The same by a least row with a cycle: first a search for one that can be wired.
    fn by_cycles(
        alloc: Global,
        inputs: &Inputs,
        kinds: &Kinds,
        row: &Arrangement,
        ring: Ring,
    ) -> Result<LowPlanned, NoMemory>
        requires least { IsLeast inputs.now.fingers row.now }
        requires ring { IsRinged OfNets inputs.now row.now ring }
        requires kinds { AreKinds inputs.now.fingers kinds.now }
        ensures { IfOk result (IsLowPlanned OfNets inputs.now row.now) }
    {
        let ended = LowWired::of(alloc, inputs, kinds, row)?;
        match ended {
            LowWired::Found { row: wired, cycles } => {
                drop(ring);
                let planned = LowPlanned::by_tracks(alloc, inputs, kinds, wired, cycles)?;
                Ok(planned)
            }
            LowWired::Open {
                certificate,
                none_wired,
            } => Ok(LowPlanned::Unwired {
                ring,
                certificate,
                none_wired,
            }),
        }
    }

    // With straight trunks, by the cycle of the least row, where it has one.
    fn straight(
        alloc: Global,
        inputs: &Inputs,
        kinds: &Kinds,
        row: &Arrangement,
        ring: Option<Ring>,
    ) -> Result<LowPlanned, NoMemory>
        requires least { IsLeast inputs.now.fingers row.now }
        requires ring { MatchOption ring (IsWired OfNets inputs.now row.now) (IsRinged OfNets inputs.now row.now) }
        requires kinds { AreKinds inputs.now.fingers kinds.now }
        ensures { IfOk result (IsLowPlanned OfNets inputs.now row.now) }
    {
        match ring {
            None => LowPlanned::by_least(alloc, inputs, kinds, row),
            Some(ring) => LowPlanned::by_cycles(alloc, inputs, kinds, row, ring),
        }
    }

    /// The lowest row of the fingers by this wiring, by a row that has the fewest gaps, with the first of its routings.
    /// With straight trunks, where that row has a cycle, a search for the rows that can be wired with the fewest gaps
    /// comes first: its lemmas on cycles certify that none with fewer has a legal routing. With doglegs all rows with
    /// as few gaps are searched. Each pass of a search keeps no more lemmas than the budget, and the last one tries no
    /// more trunks on tracks.
    pub fn of(
        alloc: Global,
        inputs: &Inputs,
        wiring: Wiring,
        row: &Arrangement,
    ) -> Result<LowPlanned, NoMemory>
        requires { IsLeast inputs.now.fingers row.now }
        ensures planned { IfOk result (IsLowPlanned wiring inputs.now row.now) }
        // without a cycle the row can be drawn
        ensures routed { IfOk result (λ _. CanBeRouted wiring inputs.now row.now) }
    {
        inputs.show_limits();
        let kinds = kinds(alloc, &inputs.fingers)?;
        let ring = ring_of(alloc, inputs, wiring, row)?;
        match wiring {
            Wiring::Straight => LowPlanned::straight(alloc, inputs, &kinds, row, ring),
            Wiring::Doglegs => by_pieces(alloc, inputs, &kinds, row, ring),
        }
    }
}
