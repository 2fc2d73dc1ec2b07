ghost use Rattle.std.specs.Prelude.{◌≡◌, ◌≤◌, ℕ};
ghost use Rattle.cell_num.specs.Fingers.{sum_below};
ghost use Rattle.row_trails.specs.Counts.{entry, fewest_trails, flag, halved, size_in};

use crate::NETS;
use cell_num::{MOST_NETS, NetNo};

/// Half of a row's nets of odd degree: the trails beside the one that goes on from the open end, or that the walk
/// begins with.
pub fn odd_trails(end: &Option<NetNo>, odd: u32) -> u32
    ensures { result ≡ halved end.now odd }
{
    match end {
        Some(_) => odd / 2,
        None => odd.saturating_sub(1) / 2,
    }
}

/// How many nets of the set each class has. The class of a net is that of its place in `classes`.
pub fn count_by_class(classes: &[u8; NETS], set: &[bool; NETS], nets: u32) -> [u32; NETS]
    requires few { nets ≤ MOST_NETS }
    ensures value { (h : ℕ) → entry result h ≡ size_in nets (entry classes.now) (flag set.now) h }
    ensures few { (h : ℕ) → entry result h ≤ MOST_NETS }
{
    let mut counts = [0; NETS];
    for net in 0..nets as usize {
        if set[net] {
            counts[classes[net] as usize] += 1;
        }
    }
    counts
}

fn trails(met: bool, odd: u32) -> u32
    ensures { result ≡ fewest_trails met odd }
{
    if met { (odd / 2).max(1) } else { 0 }
}

/// The trails of all classes, by the classes that have a finger, and how many nets of odd degree each has.
pub fn sum_trails(met: &[bool; NETS], odd: &[u32; NETS], nets: u32) -> u32
    requires few { nets ≤ MOST_NETS }
    requires few_odd { (h : ℕ) → entry odd.now h ≤ MOST_NETS }
    ensures value { result ≡ sum_below (λ h. fewest_trails (flag met.now h) (entry odd.now h)) nets }
    ensures few { result ≤ 32768 }
{
    let mut sum = 0;
    for class in 0..nets as usize {
        sum += trails(met[class], odd[class]);
    }
    sum
}
