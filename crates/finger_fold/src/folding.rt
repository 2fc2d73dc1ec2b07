ghost use Rattle.std.specs.Prelude.{◌≡◌, ◌≢◌, ◌+◌, ◌<◌, ◌≤◌, length, Ok, Err, OnOk, IfOk, IfErr};
ghost use Rattle.cell_num.specs.declared.finger.Row.TheVariants.{P, N};
ghost use Rattle.cell_num.specs.Fingers.{AreFingers, AreSound};
ghost use Rattle.spice_net.specs.Subckts.{IsSubckt};
ghost use Rattle.finger_fold.specs.declared.folding.FoldFault.TheVariants as fault;
ghost use Rattle.finger_fold.specs.Folding.{fingers_in, saturated, folded};

use crate::count::count_in;
use crate::cut::all_fingers;
use cell_num::{Fingers, MOST_COLUMNS, NoMemory, Row, columns_of};
use spice_net::Subckt;
use std::alloc::Global;
use tech_file::Tech;
use thiserror::Error;

// The most fingers of a row.
const MOST_IN_A_ROW: u128 = 64;

/// Why a subcircuit is not folded.
#[derive(Debug, Drop, Error)]
pub enum FoldFault {
    /// A row has `count` fingers, more than 64; the P row is looked at first. A count that needs more
    /// than 64 bits is reported as the greatest u64.
    #[error("TooManyFingers")]
    TooManyFingers { count: u64 },
    /// The fingers need `count` columns, more than 32.
    #[error("TooManyColumns")]
    TooManyColumns { count: u64 },
    #[error("NoMemory")]
    NoMemory,
}

impl From<NoMemory> for FoldFault {
    ghost use Rattle.finger_fold.specs.declared.folding.FoldFault.TheVariants.{NoMemory};

    ghost from_gives = { λ _ e. e ≡ NoMemory };

    fn from(_: NoMemory) -> FoldFault {
        FoldFault::NoMemory
    }
}

fn saturated(count: u128) -> u64
    ensures { result ≡ saturated count }
{
    count.min(u128::from(u64::MAX)) as u64
}

fn few_in(row: Row, cell: &Subckt, tech: &Tech) -> Result<(), FoldFault>
    ensures ok { OnOk result (length (fingers_in row tech.now cell.now.devices) ≤ MOST_IN_A_ROW) }
    ensures many { IfErr result (λ _. MOST_IN_A_ROW < length (fingers_in row tech.now cell.now.devices)) }
    ensures err { IfErr result (λ e. e ≡ fault.TooManyFingers (saturated (length
        (fingers_in row tech.now cell.now.devices)))) }
{
    let count = count_in(row, tech, cell.devices.as_slice());
    if count > MOST_IN_A_ROW {
        return Err(FoldFault::TooManyFingers {
            count: saturated(count),
        });
    }
    Ok(())
}

// The P row is looked at first.
fn few_in_rows(cell: &Subckt, tech: &Tech) -> Result<(), FoldFault>
    ensures few_p { OnOk result (length (fingers_in P tech.now cell.now.devices) ≤ MOST_IN_A_ROW) }
    ensures few_n { OnOk result (length (fingers_in N tech.now cell.now.devices) ≤ MOST_IN_A_ROW) }
    ensures fault { IfErr result (λ e. folded tech.now cell.now ≡ Err e) }
{
    few_in(Row::P, cell, tech)?;
    few_in(Row::N, cell, tech)
}

/// The fingers of a subcircuit: each transistor is cut into as few fingers as the technology's widest
/// finger of its row allows, and at least into as many as it asks for. The answer is sound for the
/// subcircuit's nets and pins.
///
/// Errors, in this order: `TooManyFingers` of the P row, of the N row, `TooManyColumns`; `NoMemory` may
/// come from the building of the fingers.
#[tactic(auto, using(crate::proofs::Sound::asked, crate::proofs::Told::never_folded))]
pub fn fold(alloc: Global, cell: &Subckt, tech: &Tech) -> Result<Fingers, FoldFault>
    requires { IsSubckt cell.now }
    // The fingers of the definition, or the first limit passed; memory may run out.
    ensures fingers { IfOk result (λ f. folded tech.now cell.now ≡ Ok f) }
    ensures fault { IfErr result (λ e. e ≢ fault.NoMemory → folded tech.now cell.now ≡ Err e) }

    // Memory alone makes it NoMemory: the definition never answers so.
    ensures told { folded tech.now cell.now ≢ Err fault.NoMemory }

    // What the layers above ask of fingers, and that these are the cell's. Where it has a transistor,
    // there is a finger.
    ensures asked { IfOk result (λ f. AreFingers f) }
    ensures some { IfOk result (λ f. 1 ≤ length cell.now.devices → 1 ≤ length f.p + length f.n) }
    ensures few_p { IfOk result (λ f. length f.p ≤ MOST_IN_A_ROW) }
    ensures few_n { IfOk result (λ f. length f.n ≤ MOST_IN_A_ROW) }
    ensures sound { IfOk result (λ f. AreSound cell.now.nets cell.now.pins f) }
{
    tech.show_limits();
    few_in_rows(cell, tech)?;
    let fingers = all_fingers(alloc, cell, tech)?;
    let count = columns_of(&fingers);
    if count > MOST_COLUMNS {
        return Err(FoldFault::TooManyColumns {
            count: count as u64,
        });
    }
    Ok(fingers)
}
