// The places of the copies of a reference, before it is turned.
ghost use Rattle.std.specs.Prelude.{◌≡◌, ◌≤◌, ◌<◌, ◌^◌, pos, neg_ℤ, ◌+ℤ◌, ◌-ℤ◌, ◌≤ℤ◌, option_map, IfSome};
ghost use Rattle.std.specs.Int.{int_div_euclid};
ghost use Rattle.gds_read.specs.References.{counts_of, two_counts, counts_told, divides, has_steps};
ghost use Rattle.gds_read.specs.References.{lattice_on, may_stand, lattice_of, shift};

use gds_area::{Point, read_point};
use gds_record::RecordType;

/// The numbers of columns and rows of copies.
#[derive(Clone, Copy, Debug, PartialEq, Eq)]
pub struct Counts {
    pub columns: u16,
    pub rows: u16,
}

/// The first copy's place, and that place moved by all columns and by all rows.
#[derive(Clone, Copy, Debug, PartialEq, Eq)]
pub struct Lattice {
    pub first: Point,
    pub behind_columns: Point,
    pub behind_rows: Point,
    pub columns: u16,
    pub rows: u16,
}

fn counted(columns: u16, rows: u16) -> Option<Counts>
    ensures value { result ≡ counts_of columns rows }
    ensures some { IfSome result (λ n. (0 < n.columns) × (0 < n.rows)) }
{
    if 0 < columns && columns < 32768 && 0 < rows && rows < 32768 {
        Some(Counts { columns, rows })
    } else {
        None
    }
}

fn two_counts(content: &[u8]) -> Option<Counts>
    ensures value { result ≡ two_counts content.now }
    ensures some { IfSome result (λ n. (0 < n.columns) × (0 < n.rows)) }
{
    match content {
        [a, b, c, d] => {
            counted(
                256 * u16::from(*a) + u16::from(*b),
                256 * u16::from(*c) + u16::from(*d),
            )
        }
        _ => None,
    }
}

fn read_counts(content: Option<&[u8]>) -> Option<Counts>
    ensures value { result ≡ counts_told (option_map (λ w. w.now) content.entry) }
    ensures some { IfSome result (λ n. (0 < n.columns) × (0 < n.rows)) }
{
    two_counts(content?)
}

fn may_stand(content: Option<&[u8]>) -> bool
    ensures { result ≡ may_stand (option_map (λ w. w.now) content.entry) }
{
    match content {
        None => true,
        Some(counts) => counts.len() == 4,
    }
}

fn divides(count: u16, from: i32, to: i32) -> bool
    requires { 0 < count }
    ensures { result ≡ divides count (to -ℤ from) }
{
    (i64::from(to) - i64::from(from)).rem_euclid(i64::from(count)) == 0
}

fn has_steps(count: u16, from: &Point, to: &Point) -> bool
    requires { 0 < count }
    ensures { result ≡ has_steps count from.now to.now }
{
    divides(count, from.x, to.x) && divides(count, from.y, to.y)
}

fn lattice_on(
    first: Point,
    behind_columns: Point,
    behind_rows: Point,
    counts: Option<Counts>,
) -> Option<Lattice>
    requires { IfSome counts (λ n. (0 < n.columns) × (0 < n.rows)) }
    ensures { result ≡ lattice_on first behind_columns behind_rows counts }
{
    let Some(counts) = counts else {
        return None;
    };
    if has_steps(counts.columns, &first, &behind_columns)
        && has_steps(counts.rows, &first, &behind_rows)
    {
        Some(Lattice {
            first,
            behind_columns,
            behind_rows,
            columns: counts.columns,
            rows: counts.rows,
        })
    } else {
        None
    }
}

/// The places that a reference of a type gives by its points and by its numbers of columns and rows.
pub fn read_lattice(kind: RecordType, xy: &[u8], content: Option<&[u8]>) -> Option<Lattice>
    ensures { result ≡ lattice_of kind xy.now (option_map (λ w. w.now) content.entry) }
{
    match kind {
        RecordType::SRef => {
            if xy.len() != 8 || !may_stand(content) {
                return None;
            }
            let first = read_point(xy, 0);
            Some(Lattice {
                first,
                behind_columns: first,
                behind_rows: first,
                columns: 1,
                rows: 1,
            })
        }
        RecordType::ARef => {
            if xy.len() != 24 {
                return None;
            }
            lattice_on(
                read_point(xy, 0),
                read_point(xy, 8),
                read_point(xy, 16),
                read_counts(content),
            )
        }
        _ => None,
    }
}

fn apart(from: &i32, to: &i32) -> i64
    ensures value { result ≡ to.now -ℤ from.now }
    ensures low { neg_ℤ (pos (2 ^ 32)) ≤ℤ result }
    ensures high { result ≤ℤ pos (2 ^ 32) }
{
    i64::from(*to) - i64::from(*from)
}

// One of these steps.
#[tactic(auto, using(crate::proofs::Steps::step_low, crate::proofs::Steps::step_high))]
fn step(from: &i32, to: &i32, whole: u16) -> i64
    requires { 0 < whole }
    ensures value { result ≡ int_div_euclid (to.now -ℤ from.now) (pos whole) }
    ensures low { neg_ℤ (pos (2 ^ 33)) ≤ℤ result }
    ensures high { result ≤ℤ pos (2 ^ 33) }
{
    apart(from, to).div_euclid(i64::from(whole))
}

/// `part` of the `whole` equal steps that lead from one coordinate to another.
pub fn shift(from: &i32, to: &i32, part: u16, whole: u16) -> i64
    requires { 0 < whole }
    ensures value { result ≡ shift from.now to.now part whole }
    ensures low { neg_ℤ (pos (2 ^ 49)) ≤ℤ result }
    ensures high { result ≤ℤ pos (2 ^ 49) }
{
    i64::from(part) * step(from, to, whole)
}

/// A coordinate of a copy.
pub fn summed(first: &i32, column: i64, row: i64) -> i64
    requires column_low { neg_ℤ (pos (2 ^ 49)) ≤ℤ column }
    requires column_high { column ≤ℤ pos (2 ^ 49) }
    requires row_low { neg_ℤ (pos (2 ^ 49)) ≤ℤ row }
    requires row_high { row ≤ℤ pos (2 ^ 49) }
    ensures value { result ≡ first.now +ℤ (column +ℤ row) }
    ensures low { neg_ℤ (pos (2 ^ 52)) ≤ℤ result }
    ensures high { result ≤ℤ pos (2 ^ 52) }
{
    i64::from(*first) + (column + row)
}
