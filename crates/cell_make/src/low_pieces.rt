// The lowest row with doglegs, by all rows with the fewest gaps.
ghost use Rattle.std.specs.Prelude.{◌≡◌, IfOk, MatchOption};
ghost use Rattle.row_state.specs.Start.{AreKinds};
ghost use Rattle.cell_inputs.specs.declared.style.Wiring.TheVariants.{Doglegs as OfPieces};
ghost use Rattle.cell_make.specs.Low.{IsLowPlanned};
ghost use Rattle.cell_make.specs.LowEnded.{most_tracks, open_by, pieces_planned_by};
ghost use Rattle.cell_make.specs.LowRows.{IsLeast, IsRinged, IsWired};

use crate::low_planned::{LowPlanned, copied};
use cell_inputs::Inputs;
use cell_num::NoMemory;
use channel_route::{Ring, Routing};
use piece_search::{LowestPieces, lowest_pieces};
use row_cycles::CycleLemmas;
use row_model::{Arrangement, gaps};
use row_state::{Component, Kinds};
use std::alloc::Global;
use track_log::TrackCertificate;
use track_search::sound_pins;

/// A legal routing of a row has at most that many tracks, by pieces or not.
pub const MOST_ROUTED: u32 = 160;

// Where the search is open: a copy of the row that can be wired, or its cycle.
fn open_by(
    ring: Option<Ring>,
    row: &Arrangement,
    certificate: TrackCertificate,
) -> Result<LowPlanned, NoMemory>
    ensures { IfOk result (λ planned. planned ≡ open_by ring row.now certificate) }
{
    match ring {
        None => {
            let row = copied(row)?;
            Ok(LowPlanned::Open { row, certificate })
        }
        Some(ring) => Ok(LowPlanned::Unwired {
            ring,
            certificate,
            none_wired: false,
        }),
    }
}

// What the search by tracks ended with, as the certificate of its gaps and tracks.
fn of_lowest(
    alloc: Global,
    lowest: LowestPieces,
    ring: Option<Ring>,
    row: &Arrangement,
    gaps: u32,
) -> Result<LowPlanned, NoMemory>
    ensures { IfOk result (λ planned. planned ≡ pieces_planned_by lowest ring row.now gaps) }
{
    let cycles = CycleLemmas::new(alloc);
    match lowest {
        LowestPieces::Found {
            placement,
            routing,
            lemmas,
        } => {
            drop(ring);
            let tracks = routing.tracks;
            Ok(LowPlanned::Found {
                placement,
                routing: Routing {
                    tracks,
                    trunks: routing.pieces,
                },
                certificate: TrackCertificate {
                    gaps,
                    tracks,
                    cycles,
                    lemmas,
                },
            })
        }
        LowestPieces::Open { proved, lemmas } => open_by(
            ring,
            row,
            TrackCertificate {
                gaps,
                tracks: proved,
                cycles,
                lemmas,
            },
        ),
    }
}

// The search is for a row on fewer tracks. Where the least row can be wired, no routing has as many. Else a search
// without such a limit might go on until its budget is spent, each number of tracks slower than the one before.
fn most_tracks(inputs: &Inputs, ring: &Option<Ring>) -> u32
    ensures { result ≡ most_tracks inputs.now ring.now }
{
    match ring {
        None => MOST_ROUTED + 1,
        Some(_) => inputs.fingers.nets,
    }
}

/// The lowest row with doglegs, by the cycle of pieces of a least row, where it has one. All rows with as few gaps are
/// searched: another one may have none. Then only rows on fewer tracks than the cell has nets are looked for.
pub(crate) fn by_pieces(
    alloc: Global,
    inputs: &Inputs,
    kinds: &Kinds,
    row: &Arrangement,
    ring: Option<Ring>,
) -> Result<LowPlanned, NoMemory>
    requires least { IsLeast inputs.now.fingers row.now }
    requires ring { MatchOption ring (IsWired OfPieces inputs.now row.now) (IsRinged OfPieces inputs.now row.now) }
    requires kinds { AreKinds inputs.now.fingers kinds.now }
    ensures { IfOk result (IsLowPlanned OfPieces inputs.now row.now) }
{
    inputs.show_limits();
    kinds.show_limits();
    sound_pins();
    let gaps = gaps(row);
    let most = most_tracks(inputs, &ring);
    let lowest = lowest_pieces(
        alloc,
        &Component,
        &inputs.cell.pins,
        kinds,
        gaps,
        most,
        inputs.budget(),
    )?;
    of_lowest(alloc, lowest, ring, row, gaps)
}
