// Pairs of nets in order, each once.
ghost use Rattle.std.specs.Prelude.{◌≡◌, ◌↔◌, ℕ, All, Contains, IfOk, IsTrue, map};
ghost use Rattle.std.specs.List.Sorted.{IsStrictlyIncreasing};
ghost use Rattle.row_cycles.specs.Above.{HasNets};
ghost use Rattle.row_cycles.specs.Fits.{is_in_order};
ghost use Rattle.cycle_search.specs.Visit.{AreSame, number_of, pair_of};

use cell_num::{List, NetNo, NoMemory};
use row_cycles::{AboveList, NetAbove};
use std::alloc::{AllocError, Global};

fn number(a: &NetAbove) -> u32
    ensures { result ≡ number_of a.now }
{
    (a.upper.0 % 256) * 256 + a.lower.0 % 256
}

fn pair(number: u32) -> NetAbove
    ensures { result ≡ pair_of number }
{
    NetAbove {
        upper: NetNo(number / 256),
        lower: NetNo(number % 256),
    }
}

fn numbers(alloc: Global, above: &[NetAbove]) -> Result<Vec<u32>, AllocError>
    ensures { IfOk result (λ numbers. numbers.items ≡ map number_of above.now) }
{
    above.iter().map(|a| number(a)).collect(alloc)
}

fn sort(numbers: &mut Vec<u32>)
    ensures rise { IsStrictlyIncreasing numbers.new.items }
    ensures same { (n : ℕ) → Contains numbers.new.items n ↔ Contains numbers.old.items n }
{
    numbers.sort_unstable();
    numbers.dedup();
}

fn pairs(alloc: Global, numbers: &[u32]) -> Result<Vec<NetAbove>, AllocError>
    ensures { IfOk result (λ pairs. pairs.items ≡ map pair_of numbers.now) }
{
    numbers.iter().map(|number| pair(*number)).collect(alloc)
}

/// The same pairs, by the upper net and then by the lower one, each once.
pub(crate) fn in_order(alloc: Global, above: &[NetAbove]) -> Result<AboveList, NoMemory>
    requires nets { All (HasNets 256) above.now }
    ensures order { IfOk result (λ ordered. IsTrue (is_in_order ordered)) }
    ensures same { IfOk result (AreSame above.now) }
{
    let mut numbers = numbers(alloc, above)?;
    sort(&mut numbers);
    let pairs = pairs(alloc, numbers.as_slice())?;
    Ok(List::from_vec(pairs))
}
