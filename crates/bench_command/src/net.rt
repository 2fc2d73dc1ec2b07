ghost use Rattle.std.specs.Prelude.{◌≡◌};
ghost use Rattle.bench_command.specs.Cells.{first_input};

use cell_num::List;

/// A net of a generated cell, by the place of its stage where it belongs to one.
#[derive(Clone, Copy, Debug, PartialEq, Eq)]
pub enum Net {
    /// The first input of the first stage.
    Input,
    /// The second input of a stage.
    Second(usize),
    /// The output of a stage, which is the first input of the next one.
    Output(usize),
    /// The net between the two transistors of a stage that are in series.
    Inner(usize),
    Vdd,
    Gnd,
}

pub type NetList = List<Net>;

/// The first input of the stage at this place.
pub fn first_input(stage: usize) -> Net
    ensures { result ≡ first_input stage }
{
    if stage == 0 {
        Net::Input
    } else {
        Net::Output(stage - 1)
    }
}
