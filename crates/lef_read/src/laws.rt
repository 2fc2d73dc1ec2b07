// Laws on what a text says, and on what a comparison answers. The calls do nothing: their contracts are the laws.
ghost use Rattle.std.specs.Prelude.{◌≡◌, ◌≢◌, ℕ, List, Err};
ghost use Rattle.box_geom.specs.declared.shape.Shapes.{Shapes};
ghost use Rattle.lef_read.specs.Agreement.{Agrees};
ghost use Rattle.lef_read.specs.Differences.{DiffersBy, HasNetlist};
ghost use Rattle.lef_read.specs.Macros.{macro_in};
ghost use Rattle.lef_read.specs.declared.cell.Macro.{Macro};
ghost use Rattle.lef_read.specs.declared.differ.Differ.{Differ};
ghost use Rattle.lef_read.specs.declared.differ.Differ.TheVariants as differ;
ghost use Rattle.lef_read.specs.declared.fault.LefFault.TheVariants as fault;

/// No text says that memory is wanted: where the reader answers otherwise, the text alone decides.
#[tactic(auto, using(crate::proofs::Calm::never_memory))]
pub fn never_memory()
    ensures { (bytes name : List ℕ) (unit : ℕ) → macro_in bytes name unit ≢ Err fault.NoMemory }
{}

/// A macro that agrees with a drawing that has a netlist has no difference from it. All differences
/// that an answer may give are equal.
#[tactic(auto, using(crate::proofs::OneAnswer::agrees_alone, crate::proofs::OneAnswer::one_answer))]
pub fn one_answer()
    ensures agrees { (shapes : Shapes) (cell : Macro) (d : Differ) → HasNetlist shapes → Agrees shapes cell →
        DiffersBy shapes cell d → d ≡ differ.NoMemory }
    ensures one { (shapes : Shapes) (cell : Macro) (d e : Differ) → d ≢ differ.NoMemory → e ≢ differ.NoMemory →
        DiffersBy shapes cell d → DiffersBy shapes cell e → d ≡ e }
{}
