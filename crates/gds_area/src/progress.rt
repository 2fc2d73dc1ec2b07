// What was taken of a structure so far.
ghost use Rattle.std.specs.Prelude.{◌≡◌, ◌≤◌, OnOk};
ghost use Rattle.gds_area.specs.Progress.{no_progress, amount, one_reference, within_limit, Adds, origin_of};

use crate::GdsFault;
use crate::area::MOST_RECTANGLES;
use crate::placement::{Move, STAYS};
use crate::units::Grid;
use box_geom::Shapes;
use cell_num::List;
use std::alloc::Global;

/// At most this number of references may be inside one another.
pub const MOST_LEVELS: u8 = 16;

/// Shapes, and how many references were taken.
#[derive(Debug, Drop)]
pub struct Progress {
    pub shapes: Shapes,
    pub refs: u64,
}

/// How a structure is placed that is referred to, and the place of the outermost reference.
#[derive(Clone, Copy, Debug, PartialEq, Eq)]
pub struct Origin {
    pub stands: Move,
    pub outer: u64,
}

/// What elements are drawn with: the grid, how their structure is placed if it is referred to, and how many
/// references may be inside one another there.
#[derive(Clone, Copy, Debug, PartialEq, Eq)]
pub struct Context {
    pub grid: Grid,
    pub origin: Option<Origin>,
    pub levels: u8,
}

/// Nothing so far.
pub fn no_progress(alloc: Global) -> Progress
    ensures { result ≡ no_progress }
{
    Progress {
        shapes: Shapes {
            rects: List::new(alloc),
            labels: List::new(alloc),
        },
        refs: 0,
    }
}

/// How an element at a place is placed.
pub fn origin_at(context: &Context, at: u64) -> Origin
    ensures { result ≡ origin_of context.now.origin at }
{
    match context.origin {
        Some(origin) => origin,
        None => {
            Origin {
                stands: STAYS,
                outer: at,
            }
        }
    }
}

/// One reference more.
#[tactic(auto, using(crate::proofs::Counting::counted, crate::proofs::Counting::counted_wide))]
pub fn count_one(progress: &mut Progress, outer: u64) -> Result<(), GdsFault>
    requires room { amount progress.now ≤ MOST_RECTANGLES }
    ensures adds { Adds result progress.old progress.new (within_limit outer (amount progress.old) one_reference) }
    ensures room { OnOk result (amount progress.new ≤ MOST_RECTANGLES) }
{
    if MOST_RECTANGLES - (progress.refs as usize) <= progress.shapes.rects.len() {
        return Err(GdsFault::Wide { at: outer });
    }
    progress.refs += 1;
    Ok(())
}
