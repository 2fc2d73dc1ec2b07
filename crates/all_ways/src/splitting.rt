ghost use Rattle.std.specs.Prelude.{◌||◌, IfOk};
ghost use Rattle.track_ways.specs.Lines.{is_ahead};
ghost use Rattle.track_ways.specs.Tables.{marked};
ghost use Rattle.all_ways.specs.Splits.{NoneUnfit, SplitsAt};

use cell_num::{NetNo, NoMemory, Pins};
use row_trails::NETS;
use std::alloc::Global;
use track_ways::{Line, NetTrack, TrackRule};

/// A rule that says which nets get their tracks at a line one by one, before the rest is listed. So the list is short.
pub trait Splitting: TrackRule {
    /// Some nets that have no track before the line, and are to get each one in turn.
    fn split_nets(
        alloc: Global,
        pins: &Pins,
        nets: u32,
        before: &[bool; NETS],
        line: &Line,
        rest: &[Line],
        behind: &[bool; NETS],
        tracks: &[NetTrack],
    ) -> Result<Vec<NetNo>, NoMemory>
        ensures { IfOk result (λ split. SplitsAt Self.ways pins.now nets (marked before.now) line.now
            (λ n. is_ahead rest.now n || marked behind.now n) tracks.now split.items) };

    /// No tracks go on from those that do not fit the line.
    ghost unfit: { NoneUnfit Self.ways };
}
