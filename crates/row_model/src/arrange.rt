ghost use Rattle.std.specs.List.{list_all};
ghost use Rattle.std.specs.Prelude.{◌==◌, ◌≡◌, ◌≤◌, ◌↔◌, IsTrue, length, count_by, max, if◌then◌else◌};
ghost use Rattle.cell_num.specs.Fingers.{on_gate, columns_of, AreFingers};
ghost use Rattle.row_model.specs.Arrangement.{IsArrangement, fingers_in};
ghost use Rattle.row_model.specs.Tests.{placed_test, column_test, arrangement_test, same_finger, has_same_fingers};

use crate::{Arrangement, Column, Placed};
use cell_num::{Finger, Fingers, Row, columns_of};

fn is_same(a: &Finger, b: &Finger) -> bool
    ensures { result ≡ same_finger a.now b.now }
{
    a == b
}

fn count_in_row(columns: &[Column], row: Row, finger: &Finger) -> usize
    ensures { result ≡ count_by (same_finger finger.now) (fingers_in row columns.now) }
{
    columns
        .iter()
        .filter_map(|column| column.place(row).map(|x| x.finger))
        .filter(|other| is_same(finger, other))
        .count()
}

fn row_len(columns: &[Column], row: Row) -> usize
    ensures { result ≡ length (fingers_in row columns.now) }
{
    columns
        .iter()
        .filter_map(|column| column.place(row).map(|x| x.finger))
        .count()
}

fn count(fingers: &[Finger], finger: &Finger) -> usize
    ensures { result ≡ count_by (same_finger finger.now) fingers.now }
{
    fingers
        .iter()
        .filter(|other| is_same(finger, other))
        .count()
}

// Each finger of the list is in the row as often as in the list.
fn has_counts(columns: &[Column], row: Row, fingers: &[Finger]) -> bool
    ensures { result ≡ list_all (λ x. count_by (same_finger x) (fingers_in row columns.now) == count_by
        (same_finger x) fingers.now) fingers.now }
{
    fingers.iter().all(|finger| count_in_row(columns, row, finger) == count(fingers, finger))
}

// The row has the same fingers as the list, each as often.
fn has_fingers(columns: &[Column], row: Row, fingers: &[Finger]) -> bool
    ensures { result ≡ has_same_fingers fingers.now (fingers_in row columns.now) }
{
    row_len(columns, row) == fingers.len() && has_counts(columns, row, fingers)
}

fn is_unflipped_loop(x: &Placed) -> bool
    ensures { result ≡ placed_test x.now }
{
    x.finger.lo != x.finger.hi || !x.flipped
}

fn is_column(column: &Column) -> bool
    ensures { result ≡ column_test column.now.p column.now.n }
{
    match (&column.p, &column.n) {
        (None, None) => false,
        (Some(x), None) => is_unflipped_loop(x),
        (None, Some(y)) => is_unflipped_loop(y),
        (Some(x), Some(y)) => {
            x.finger.gate == y.finger.gate && is_unflipped_loop(x) && is_unflipped_loop(y)
        }
    }
}

fn are_columns(columns: &[Column]) -> bool
    ensures { result ≡ list_all (λ c. column_test c.p c.n) columns.now }
{
    columns.iter().all(|column| is_column(column))
}

fn arranges(row: &Arrangement, fingers: &Fingers) -> bool
    requires { AreFingers fingers.now }
    ensures { result ≡ arrangement_test row.now fingers.now }
{
    let columns = row.as_slice();
    are_columns(columns)
        && has_fingers(columns, Row::P, fingers.p.as_slice())
        && has_fingers(columns, Row::N, fingers.n.as_slice())
        && columns.len() == columns_of(fingers)
}

/// Whether the row has each of the fingers once, in columns of one gate, and as few of them as the
/// counts of the gates allow.
#[tactic(auto, using(crate::proofs::Decide::arrangement_decides))]
pub fn is_arrangement(row: &Arrangement, fingers: &Fingers) -> bool
    requires { AreFingers fingers.now }
    ensures { IsTrue result ↔ IsArrangement row.now fingers.now }
{
    arranges(row, fingers)
}
