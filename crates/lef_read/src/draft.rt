// The macro that is wanted, as far as it is read.
ghost use Rattle.std.specs.Prelude.{◌≡◌, ◌≢◌, ◌≤◌, [], ◌∷◌, List, Ok, Err, IfOk, IfErr, OnOk};
ghost use Rattle.lef_read.specs.Reading.{Begins, Item, Pin, item_of};
ghost use Rattle.lef_read.specs.Drafts.{begun, block_shown, completed, with_last_pin, with_rect};
ghost use Rattle.lef_read.specs.declared.stage.Stage.TheVariants.{Inside};
ghost use Rattle.lef_read.specs.declared.fault.LefFault.TheVariants as fault;

use crate::block_kind::Block;
use crate::cell::{LefPin, LefPinList, LefRect, LefRectList, Macro};
use crate::fault::LefFault;
use crate::grid::on_grid;
use crate::sides::Sides;
use crate::stage::{Stage, next_stage};
use box_geom::Layer;
use cell_num::{List, Name, NoMemory, copy};
use std::alloc::Global;
use std::marker::Model;

/// The wanted macro as far as it is read.
#[derive(Debug, Drop)]
pub struct Draft {
    wanted: Name,
    unit: u32,
    stage: Stage,
    // the line of the first rectangle off the grid
    off_grid: Option<u32>,
    pins: LefPinList,
    last: Option<LefPin>,
    obstructions: LefRectList,
}

impl Model for Draft {
    ghost use Rattle.std.specs.Prelude.{◌≤◌};
    ghost use Rattle.lef_read.specs.Drafts.{Draft as DraftOf};

    ghost Value = { DraftOf };

    ghost view = { λ d. record {
      wanted = d.wanted;
      unit = d.unit;
      stage = d.stage;
      off_grid = d.off_grid;
      pins = d.pins;
      last = d.last;
      obstructions = d.obstructions;
    } };

    ghost invariant = { λ d. 1 ≤ d.unit };
}

impl Draft {
    /// Nothing is read.
    pub fn new(alloc: Global, wanted: &[u8], unit_nm: u32) -> Result<Draft, NoMemory>
        requires { 1 ≤ unit_nm }
        ensures { IfOk result (λ d. d ≡ begun wanted.now unit_nm) }
    {
        Ok(Draft {
            wanted: copy(alloc, wanted)?,
            unit: unit_nm,
            stage: Stage::Before,
            off_grid: None,
            pins: List::new(alloc),
            last: None,
            obstructions: List::new(alloc),
        })
    }

    /// A macro begins.
    #[tactic(auto, using(crate::proofs::Drafting::macro_begins))]
    pub fn begin(&mut self, name: &[u8])
        ensures { (items : List Item) → completed self.old (Begins name.now ∷ items) ≡ completed self.new items }
    {
        self.stage = next_stage(self.stage, name, self.wanted.as_slice());
    }

    // The last pin is whole.
    fn close_pin(&mut self) -> Result<(), NoMemory>
        ensures { OnOk result (self.new ≡ with_last_pin self.old) }
    {
        match self.last.take() {
            Some(pin) => self.pins.push(pin),
            None => Ok(()),
        }
    }

    /// A pin begins.
    #[tactic(auto, using(crate::proofs::Drafting::pin_begins, crate::proofs::Drafting::pin_elsewhere))]
    pub fn pin(&mut self, alloc: Global, name: &[u8]) -> Result<(), NoMemory>
        ensures { OnOk result ((items : List Item) → completed self.old (Pin name.now ∷ items)
            ≡ completed self.new items) }
    {
        if self.stage != Stage::Inside {
            return Ok(());
        }
        self.close_pin()?;
        self.last = Some(LefPin {
            name: copy(alloc, name)?,
            ports: List::new(alloc),
        });
        Ok(())
    }

    fn keep(&mut self, block: &Block<'_>, rect: LefRect) -> Result<(), NoMemory>
        ensures { OnOk result (self.new ≡ with_rect (block_shown block.now) rect self.old) }
    {
        match block {
            Block::OfMacro { .. } => self.obstructions.push(rect),
            Block::OfPin { .. } => match &mut self.last {
                Some(pin) => pin.ports.push(rect),
                None => Ok(()),
            },
        }
    }

    // A rectangle of the wanted macro.
    #[tactic(auto, using(crate::proofs::Drafting::rect_off_grid, crate::proofs::Drafting::rect_kept))]
    fn rect_inside(
        &mut self,
        block: &Block<'_>,
        line: u32,
        layer: Layer,
        sides: &Sides,
    ) -> Result<(), NoMemory>
        requires inside { self.old.stage ≡ Inside }
        requires on_grid { self.old.off_grid ≡ None }
        ensures { OnOk result ((items : List Item) →
            completed self.old (item_of (block_shown block.now)
            (record { line = line; layer = layer; sides = sides.now }) ∷ items)
            ≡ completed self.new items) }
    {
        match on_grid(sides, self.unit) {
            Some(rect) => {
                self.keep(block, LefRect { layer, rect })?;
                Ok(())
            }
            None => {
                self.off_grid = Some(line);
                Ok(())
            }
        }
    }

    /// A rectangle of a block; its word RECT is on the line.
    #[tactic(auto, using(crate::proofs::Drafting::rect_elsewhere, crate::proofs::Drafting::rect_behind_fault))]
    pub fn rect(
        &mut self,
        block: &Block<'_>,
        line: u32,
        layer: Layer,
        sides: &Sides,
    ) -> Result<(), NoMemory>
        ensures { OnOk result ((items : List Item) →
            completed self.old (item_of (block_shown block.now)
            (record { line = line; layer = layer; sides = sides.now }) ∷ items)
            ≡ completed self.new items) }
    {
        if self.stage != Stage::Inside {
            return Ok(());
        }
        match self.off_grid {
            Some(_) => Ok(()),
            None => self.rect_inside(block, line, layer, sides),
        }
    }

    /// The macro that was wanted, after the last item of the library.
    #[tactic(auto, using(crate::proofs::Drafting::end_rules))]
    pub fn finish(self) -> Result<Macro, LefFault>
        ensures read { IfOk result (λ m. completed self [] ≡ Ok m) }
        ensures refused { IfErr result (λ f. f ≢ fault.NoMemory → completed self [] ≡ Err f) }
    {
        let mut draft = self;
        if draft.stage == Stage::Before {
            return Err(LefFault::NoMacro);
        }
        match draft.off_grid {
            Some(line) => Err(LefFault::Grid { line }),
            None => {
                draft.close_pin()?;
                Ok(Macro {
                    name: draft.wanted,
                    pins: draft.pins,
                    obstructions: draft.obstructions,
                })
            }
        }
    }
}
