ghost use Rattle.std.specs.Prelude.{◌≡◌, ◌<◌, ◌≤◌, IfSome, length, position};
ghost use Rattle.row_model.specs.Tests.{same_finger};
ghost use Rattle.row_state.specs.Completion.{finger_of};
ghost use Rattle.cell_commands.specs.Sides.{HasKind, IsNumberOf, IsSideOf};

use cell_num::{Finger, MOST_COLUMNS, Row};
use row_model::Placed;
use row_state::{Kind, Side};

// Whether the finger is of the kind.
fn is_of(row: Row, kind: &Kind, finger: &Finger) -> bool
    ensures { result ≡ same_finger (finger_of row kind.now) finger.now }
{
    let alike = Finger {
        row,
        gate: kind.gate,
        lo: kind.lo,
        hi: kind.hi,
        width: kind.width,
    };
    alike == *finger
}

fn place_of(row: Row, kinds: &[Kind], finger: &Finger) -> Option<usize>
    ensures { result ≡ position (λ kind. same_finger (finger_of row kind) finger.now) kinds.now }
{
    kinds.iter().position(|kind| is_of(row, kind, finger))
}

// The number of the kind that the finger is of.
fn number_of(row: Row, kinds: &[Kind], finger: &Finger) -> u32
    requires few { length kinds.now ≤ MOST_COLUMNS }
    requires kind { HasKind row kinds.now finger.now }
    ensures { IsNumberOf row kinds.now finger.now result }
{
    match place_of(row, kinds, finger) {
        Some(at) => at as u32,
        None => unreachable!(),
    }
}

// What is in a place, by the number of its kind.
pub(crate) fn side(row: Row, kinds: &[Kind], place: &Option<Placed>) -> Option<Side>
    requires few { length kinds.now ≤ MOST_COLUMNS }
    requires kind { IfSome place.now (λ x. HasKind row kinds.now x.finger) }
    ensures { IsSideOf row kinds.now place.now result }
{
    match place {
        Some(placed) => Some(Side {
            kind: number_of(row, kinds, &placed.finger),
            flipped: placed.flipped,
        }),
        None => None,
    }
}
