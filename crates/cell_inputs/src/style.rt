ghost use Rattle.std.specs.Prelude.{◌≡◌};
ghost use Rattle.cell_inputs.specs.Style.{plain_style};

/// How the nets of a cell are wired in its channel.
#[derive(Clone, Copy, Debug, PartialEq, Eq)]
pub enum Wiring {
    /// A net that needs a trunk has one, from its first line to its last.
    Straight,
    /// A trunk may change its track at each node line of its net between its first line and its last.
    Doglegs,
}

/// Whether a cell has taps of its well and of the substrate.
#[derive(Clone, Copy, Debug, PartialEq, Eq)]
pub enum Taps {
    Without,
    With,
}

/// Which of the rows with the fewest columns and the fewest gaps a cell is drawn with.
#[derive(Clone, Copy, Debug, PartialEq, Eq)]
pub enum LeastRow {
    /// The first one.
    First,
    /// The first one on the fewest tracks.
    Lowest,
}

/// How a cell is made of its inputs.
#[derive(Clone, Copy, Debug, PartialEq, Eq)]
pub struct Style {
    pub wiring: Wiring,
    pub taps: Taps,
}

impl Style {
    /// Straight trunks, and no taps.
    pub fn plain() -> Style
        ensures { result ≡ plain_style }
    {
        Style {
            wiring: Wiring::Straight,
            taps: Taps::Without,
        }
    }
}
