ghost use Rattle.std.specs.Prelude.{◌≡◌, ◌≤◌, ◌+◌, ℕ, length};
ghost use Rattle.cell_num.specs.Fingers.{AreFingers};
ghost use Rattle.gds_write.specs.Written.{written};
ghost use Rattle.cell_inputs.specs.Style.{plain_style};
ghost use Rattle.cell_make.specs.Making.{CanBeWritten, ComesTo, answer_of};
ghost use Rattle.bench_command.specs.Bench.{counted_as, made_tally};
ghost use Rattle.bench_command.specs.Size.{IsSmall};

use crate::size::library_len;
use crate::tally::Tally;
use box_geom::Shapes;
use cell_inputs::Inputs;
use cell_make::Outcome;
use cell_num::Fingers;
use row_model::{Arrangement, gaps};

// The fingers of both rows.
#[tactic(auto, using(crate::proofs::Counted::few_sum))]
fn finger_count(fingers: &Fingers) -> usize
    requires { AreFingers fingers.now }
    ensures { result ≡ length fingers.now.p + length fingers.now.n }
{
    fingers.p.len() + fingers.n.len()
}

// The counts of a made cell, from its row and its shapes.
fn made(inputs: &Inputs, row: &Arrangement, shapes: &Shapes) -> Tally
    requires row { length row.now ≤ 32 }
    requires small { IsSmall inputs.now.cell.name shapes.now }
    ensures { (unit : ℕ)
        → result ≡ made_tally inputs.now.fingers row.now (written inputs.now.cell.name shapes.now unit) }
{
    inputs.show_limits();
    Tally {
        made: 1,
        columns: row.len() as u64,
        gaps: u64::from(gaps(row)),
        fingers: finger_count(&inputs.fingers) as u64,
        bytes: library_len(&inputs.cell.name, shapes),
        ..Tally::nothing()
    }
}

/// The counts of a cell that was made in the plain style.
pub(crate) fn counted(inputs: &Inputs, outcome: &Outcome) -> Tally
    requires comes { ComesTo plain_style inputs.now outcome.now }
    requires written { CanBeWritten inputs.now outcome.now }
    ensures { result ≡ counted_as inputs.now (answer_of outcome.now) }
{
    inputs.show_limits();
    match outcome {
        Outcome::Made {
            placement,
            drawn,
            ..
        } => { made(inputs, &placement.row, &drawn.drawing.shapes) }
        Outcome::Cyclic { .. } => Tally {
            cycles: 1,
            ..Tally::nothing()
        },
        Outcome::Tall { .. } => Tally::nothing(),
        Outcome::Unfinished { .. } => Tally {
            unfinished: 1,
            ..Tally::nothing()
        },
    }
}
