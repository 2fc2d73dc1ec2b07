ghost use Rattle.std.specs.Prelude.{◌≡◌, IfErr, IfOk, slice_get};
ghost use Rattle.cell_num.specs.Fingers.{AreFingers};
ghost use Rattle.trail_search.specs.declared.found.TrailStop.TheVariants as stopped;
ghost use Rattle.trail_search.specs.Ended.{IsFound, Stops};
ghost use Rattle.trail_search.specs.Searched.{attempts_by};

use crate::first::first_row;
use crate::limits::prove;
use crate::proof::{Proof, ProveStop};
use crate::{Attempts, TrailFound, TrailStop};
use cell_num::{Fingers, Halt, NetNo};
use row_state::kinds;
use std::alloc::Global;

fn unfinished(proof: Proof) -> TrailStop
    ensures { result ≡ stopped.Unfinished proof.trails proof.gaps }
{
    TrailStop::Unfinished {
        trails: proof.trails,
        proved: proof.gaps,
    }
}

// An attempt would list the ways of each gate, also of one that is left open.
fn attempts(proof: &Proof) -> Attempts
    ensures { result ≡ attempts_by proof.now.opened }
{
    if proof.opened.len() == 0 {
        Attempts::AtOnce
    } else {
        Attempts::Never
    }
}

fn first_opened(proof: &Proof) -> Option<NetNo>
    ensures { result ≡ slice_get proof.now.opened 0 }
{
    proof.opened.as_slice().first().copied()
}

/// The first least arrangement of the fingers, and a certificate by trails that proves that none has fewer gaps; or
/// what is proved when the budget is spent. A visit of a state takes one unit of it, where nothing kept says that the
/// state fails. A visit along trails takes one more for each 64 choices of the next gate. So does a list of the choices
/// of all gates that a state of the row has left. A gate ends the search where it has too many ways and is not left
/// open. So does the first gate that is left open, where each arrangement has more gaps than lemmas prove then.
pub fn search_trails(alloc: Global, fingers: &Fingers, budget: u64) -> Result<TrailFound, TrailStop>
    requires { AreFingers fingers.now }
    ensures found { IfOk result (IsFound fingers.now budget) }
    ensures stopped { IfErr result (Stops fingers.now budget) }
{
    let kinds = kinds(alloc, fingers)?;
    let mut left = budget;
    let proof = match prove(alloc, fingers, &mut left) {
        Ok(proof) => proof,
        Err(ProveStop::Unfinished(proof)) => return Err(unfinished(proof)),
        Err(ProveStop::Choices { gate }) => return Err(TrailStop::Choices { gate }),
        Err(ProveStop::NoMemory) => return Err(TrailStop::NoMemory),
    };
    match first_row(alloc, &kinds, proof.gaps, attempts(&proof), left) {
        Ok(Some(first)) => Ok(TrailFound {
            row: first.row,
            trails: proof.trails.listing(first.best),
        }),
        // With no gate left open, some row has as few gaps as the lemmas prove.
        Ok(None) => match first_opened(&proof) {
            Some(gate) => Err(TrailStop::Choices { gate }),
            None => unreachable!(),
        },
        Err(Halt::Spent) => Err(unfinished(proof)),
        Err(Halt::NoMemory) => Err(TrailStop::NoMemory),
    }
}
