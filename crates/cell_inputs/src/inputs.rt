ghost use Rattle.std.specs.Prelude.{◌≡◌, ◌≤◌};
ghost use Rattle.cell_inputs.specs.Inputs.{AreInputs, unit_nm};

use cell_num::Fingers;
use spice_net::Subckt;
use std::marker::Model;
use tech_file::Tech;

/// What a cell is made of: the technology, the subcircuit, whose name is one that
/// [`is_cell`](cell_num::is_cell) takes, and its fingers, of which there is at least one.
pub struct Inputs {
    pub tech: Tech,
    pub cell: Subckt,
    pub fingers: Fingers,
}

// (by hand, so that functions in which they go out of scope cite this proof)
impl Drop for Inputs {
    fn drop(self) {
        let Inputs {
            tech,
            cell,
            fingers,
        } = self;
        drop(tech);
        drop(cell);
        drop(fingers);
    }
}

impl Model for Inputs {
    ghost use Rattle.cell_inputs.specs.Inputs.{Inputs as InputsOf, AreInputs, inputs_of};

    ghost Value = { InputsOf };

    ghost view = { λ i. inputs_of i.tech i.cell i.fingers };

    ghost invariant = { λ i. AreInputs (inputs_of i.tech i.cell i.fingers) };
}

impl Inputs {
    /// Shows a caller's proof what holds of all inputs; it does nothing.
    pub fn show_limits(&self)
        ensures { AreInputs self.now }
    {
        let _ = &self.fingers;
    }

    /// The subcircuit alone.
    pub fn into_cell(self) -> Subckt
        ensures { result ≡ self.cell }
    {
        let Inputs {
            tech,
            cell,
            fingers,
        } = self;
        drop(tech);
        drop(fingers);
        cell
    }

    /// The most nodes of a search, at most 1,000,000.
    pub fn budget(&self) -> u64
        ensures is { result ≡ self.now.tech.budget }
        ensures few { result ≤ 1000000 }
    {
        self.tech.show_limits();
        self.tech.budget
    }

    /// The height of the cell, 0 for as little as it needs.
    pub fn height(&self) -> u32
        ensures is { result ≡ self.now.tech.height }
        ensures few { result ≤ 4000 }
    {
        self.tech.show_limits();
        self.tech.height
    }

    /// The nanometres of a grid unit, half a lambda.
    pub fn unit_nm(&self) -> u32
        ensures is { result ≡ unit_nm self.now.tech }
        ensures least { 10 ≤ result }
        ensures most { result ≤ 1000 }
    {
        self.tech.unit_nm()
    }
}
