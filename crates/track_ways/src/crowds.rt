// Whether more nets hold a line than there are tracks.
ghost use Rattle.std.specs.Prelude.{◌≡◌, ◌||◌, [], List, All, IfOk, count_by, false};
ghost use Rattle.row_state.specs.Start.{IsState};
ghost use Rattle.row_state.specs.Steps.{state_after};
ghost use Rattle.track_ways.specs.Crowds.{end_uncrowded, none_crowded, step_uncrowded};
ghost use Rattle.track_ways.specs.Lines.{is_ahead, is_held};
ghost use Rattle.track_ways.specs.States.{is_behind, is_still_ahead};
ghost use Rattle.track_ways.specs.Tables.{HasEntries, marked};
ghost use Rattle.track_ways.specs.Ways.{ends_ways, goes_ways, nets_below};
ghost use Rattle.track_ways.specs.declared.track.NetTrack.{NetTrack};

use crate::held::is_held;
use crate::line::Line;
use crate::lines::{last_line, lines_to, no_nets};
use crate::table::mark_line;
use cell_num::{NetNo, NoMemory, Pins};
use row_state::{Kinds, State, Step, column};
use row_trails::NETS;
use std::alloc::Global;

// How many nets below the number hold the line before the rest of the lines, of which `before` and `after` have the
// nets with a place before and after them.
fn nets_at(
    pins: &Pins,
    nets: u32,
    before: &[bool; NETS],
    line: &Line,
    rest: &[Line],
    after: &[bool; NETS],
) -> usize
    ensures { result ≡ count_by (is_held pins.now (marked before.now) line.now
        (λ n. is_ahead rest.now n || marked after.now n)) (nets_below nets) }
{
    (0..nets)
        .map(|n| NetNo(n))
        .filter(|net| is_held(pins, before, line, rest, after, *net))
        .count()
}

// Whether no line is crowded, of lines of which `before` and `after` have the nets with a place before and after them.
// Nets of the lines are added to `before` on the way.
fn none_crowded(
    pins: &Pins,
    limit: u32,
    nets: u32,
    before: &mut [bool; NETS],
    lines: &[Line],
    after: &[bool; NETS],
) -> bool
    requires { All (HasEntries 256) lines.now }
    ensures { result ≡ none_crowded pins.now limit nets (marked before.old) lines.now (marked after.now) }
{
    let Some((line, rest)) = lines.split_first() else {
        return true;
    };
    if nets_at(pins, nets, before, line, rest, after) > limit as usize {
        return false;
    }
    mark_line(before, line);
    none_crowded(pins, limit, nets, before, rest, after)
}

/// Whether no line to the next column is crowded. `before` has the nets with a place before the state, `after` those
/// with one after the column.
pub fn step_uncrowded(
    alloc: Global,
    pins: &Pins,
    limit: u32,
    kinds: &Kinds,
    state: &State,
    before: &[bool; NETS],
    step: &Step,
    after: &[bool; NETS],
) -> Result<bool, NoMemory>
    requires state { IsState kinds.now state.now }
    requires before { marked before.now ≡ is_behind kinds.now state.now }
    requires after { marked after.now ≡ is_still_ahead kinds.now (state_after kinds.now state.now step.now) }
    ensures is { IfOk result (λ free. free ≡ step_uncrowded pins.now limit kinds.now state.now step.now) }
    // no tracks go through a crowded line
    ensures crowded { IfOk result (λ free. free ≡ false → (tracks : List NetTrack)
        → goes_ways pins.now limit kinds.now state.now tracks step.now ≡ []) }
{
    kinds.show_limits();
    let lines = lines_to(alloc, state, &column(step, kinds))?;
    let mut earlier = *before;
    let free = none_crowded(pins, limit, kinds.nets, &mut earlier, &lines, after);
    Ok(free)
}

/// Whether the last line is not crowded. `before` has the nets with a place before it.
pub fn end_uncrowded(
    alloc: Global,
    pins: &Pins,
    limit: u32,
    kinds: &Kinds,
    state: &State,
    before: &[bool; NETS],
) -> Result<bool, NoMemory>
    requires state { IsState kinds.now state.now }
    requires before { marked before.now ≡ is_behind kinds.now state.now }
    ensures is { IfOk result (λ free. free ≡ end_uncrowded pins.now limit kinds.now state.now) }
    // no tracks go through a crowded line
    ensures crowded { IfOk result (λ free. free ≡ false → (tracks : List NetTrack)
        → ends_ways pins.now limit kinds.now state.now tracks ≡ []) }
{
    kinds.show_limits();
    let lines = last_line(alloc, state)?;
    let none = no_nets();
    let mut earlier = *before;
    let free = none_crowded(pins, limit, kinds.nets, &mut earlier, &lines, &none);
    Ok(free)
}
