ghost use Rattle.std.specs.List.{list_all};
ghost use Rattle.std.specs.Prelude.{◌≡◌, ◌↔◌, IsTrue, nat_le};
ghost use Rattle.cell_num.specs.Fingers.{AreFingers, columns_of};
ghost use Rattle.cell_num.specs.Tests.{finger_test, fingers_test};

use crate::columns::larger_count;
use crate::{Finger, Fingers, MOST_COLUMNS, MOST_NETS, Row};

fn is_finger(finger: &Finger, row: Row, nets: u32) -> bool
    ensures { result ≡ finger_test row nets finger.now }
{
    finger.row == row && finger.lo.0 <= finger.hi.0 && finger.gate.0 < nets && finger.hi.0 < nets
}

fn is_row(fingers: &[Finger], row: Row, nets: u32) -> bool
    ensures { result ≡ list_all (finger_test row nets) fingers.now }
{
    fingers.iter().all(|finger| is_finger(finger, row, nets))
}

#[tactic(auto, using(crate::proofs::Sums::sum_below_more, crate::proofs::Sums::sum_below_le))]
fn are_few_columns(fingers: &Fingers) -> bool
    ensures { result ≡ nat_le (columns_of fingers.now) MOST_COLUMNS }
{
    let mut left = MOST_COLUMNS;
    for gate in 0..fingers.nets {
        let count = larger_count(fingers, gate);
        if left < count {
            return false;
        }
        left -= count;
    }
    true
}

fn passes(fingers: &Fingers) -> bool
    ensures { result ≡ fingers_test fingers.now }
{
    fingers.nets <= MOST_NETS
        && is_row(fingers.p.as_slice(), Row::P, fingers.nets)
        && is_row(fingers.n.as_slice(), Row::N, fingers.nets)
        && are_few_columns(fingers)
}

/// Whether these are fingers that the calls of the workspace take: each of its row, with its ends in
/// order and its nets below `nets`, over at most [`MOST_NETS`] nets and [`MOST_COLUMNS`] columns.
#[tactic(auto, using(crate::proofs::Decide::fingers_decide))]
pub fn are_fingers(fingers: &Fingers) -> bool
    ensures { IsTrue result ↔ AreFingers fingers.now }
{
    passes(fingers)
}
