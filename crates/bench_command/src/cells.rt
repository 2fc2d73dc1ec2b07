ghost use Rattle.std.specs.Prelude.{◌≡◌, ◌≤◌, ◌+◌, IfOk, length};
ghost use Rattle.bench_command.specs.Bench.{HoldsCell, IsBenched, IsCountOf};
ghost use Rattle.bench_command.specs.Tally.{AreAllEnded, IsWithin};

use crate::bench_text;
use crate::count::counted;
use crate::read::bench_inputs;
use crate::tally::Tally;
use cell_inputs::Style;
use cell_make::Outcome;
use cell_num::{MOST_BYTES, NoMemory};
use std::alloc::Global;

// The tally of one cell. What making it resulted in is dropped by a call: where that goes out of scope by itself, all
// its parts are proved at once, and that takes minutes.
fn count_cell(alloc: Global, text: &[u8], cell: u32) -> Result<Tally, NoMemory>
    requires few { length text.now ≤ MOST_BYTES }
    requires holds { HoldsCell text.now cell }
    ensures counted { IfOk result (IsCountOf text.now cell) }
    ensures ended { IfOk result (AreAllEnded 1) }
    ensures few { IfOk result (IsWithin 1) }
{
    let inputs = bench_inputs(alloc, text, cell)?;
    inputs.show_limits();
    let outcome = Outcome::of(alloc, &inputs, Style::plain())?;
    let tally = counted(&inputs, &outcome);
    drop(outcome);
    Ok(tally)
}

/// Makes that many generated cells, each read from the text of all of them, and counts what comes out. Each is made or
/// has a cycle.
pub fn bench(alloc: Global, number: u32) -> Result<Tally, NoMemory>
    requires some { 1 ≤ number }
    requires few { number ≤ 200 }
    ensures benched { IfOk result (IsBenched number) }
    ensures finished { IfOk result (λ tally. tally.unfinished ≡ 0) }
    ensures sum { IfOk result (λ tally. tally.made + tally.cycles ≡ number) }
{
    let text = bench_text(alloc, number)?;
    let mut tally = Tally::nothing();
    for cell in 0..number {
        let one = count_cell(alloc, text.as_slice(), cell)?;
        tally = tally.plus(one);
    }
    Ok(tally)
}
