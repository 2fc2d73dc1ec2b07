// Positions of lines: at even distances, and the least that distances allow.

ghost use Rattle.std.specs.Prelude.{◌≡◌, ◌≤◌, ◌<◌, ◌+◌, ◌*◌, ℕ, List as Sequence, All, IfOk, map};
ghost use Rattle.std.specs.List.{range_with_len};
ghost use Rattle.row_compact.specs.declared.distance.Distances.{Distances as SomeDistances};
ghost use Rattle.row_compact.specs.Solution.{AreSpread, IsEntry, IsLeast, x_of as x_at};
ghost use Rattle.row_compact.specs.Allowed.{AreAlwaysAllowed};
ghost use Rattle.row_compact.specs.Entries.{reach_from};

use crate::{Distance, Distances, LineXs, MOST_LINES, SIDE_SPACE, STRETCH_SPACE, x_of};
use cell_num::NoMemory;
use std::alloc::Global;

/// Puts line 0 at 8 and each next line 14 further, which every legal routing of as many lines allows.
pub fn even_lines(alloc: Global, lines: u32) -> Result<LineXs, NoMemory>
    requires { lines ≤ MOST_LINES }
    ensures values { IfOk result (λ xs. xs ≡ map (λ line. 8 + 14 * line) (range_with_len 0 lines)) }
    ensures spread { IfOk result (AreSpread lines) }
    ensures allowed { IfOk result (AreAlwaysAllowed lines) }
{
    let mut xs = LineXs::new(alloc);
    for line in 0..lines {
        xs.push(SIDE_SPACE + STRETCH_SPACE * line)?;
    }
    Ok(xs)
}

// The least position of a line, from the positions of the lines before it.
fn least_x(list: &[Distance], xs: &[u32], line: u32) -> u32
    requires modest { All (λ d. d.least ≤ 1000) list.now }
    requires low { (at : ℕ) → x_at xs.now at ≤ 126008 }
    ensures value { result ≡ reach_from xs.now line 0 list.now }
    ensures low { result ≤ 127008 }
{
    let mut least = 0;
    for distance in list {
        if distance.to == line {
            least = least.max(x_of(xs, distance.from) + distance.least);
        }
    }
    least
}

/// The least solution of the distances: at every line it is at most every other solution.
#[tactic(auto, using(crate::proofs::Least::push_rules))]
pub fn least_lines(alloc: Global, distances: &Distances) -> Result<LineXs, NoMemory>
    requires some { 0 < distances.now.lines }
    requires few { distances.now.lines ≤ MOST_LINES }
    requires ascending { All (IsEntry distances.now.lines) distances.now.list }
    ensures least { IfOk result (IsLeast distances.now) }
    ensures first { IfOk result (λ xs. x_at xs 0 ≡ 8) }
    ensures low { IfOk result (λ xs. (line : ℕ) → x_at xs line ≤ 127008) }
{
    let mut xs = LineXs::new(alloc);
    xs.push(SIDE_SPACE)?;
    for line in 1..distances.lines {
        let x = least_x(distances.list.as_slice(), xs.as_slice(), line);
        xs.push(x)?;
    }
    Ok(xs)
}

/// A law: distances have one least solution. The call does nothing.
pub fn one_least()
    ensures one { (d : SomeDistances) (xs ys : Sequence ℕ) → IsLeast d xs → IsLeast d ys → xs ≡ ys }
{}
