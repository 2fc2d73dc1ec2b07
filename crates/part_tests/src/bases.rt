ghost use Rattle.std.specs.Prelude.{◌≤◌, All, IfOk, length};
ghost use Rattle.row_model.specs.Arrangement.{IsColumn};
ghost use Rattle.row_place.specs.Places.{IsPlacement};
ghost use Rattle.cell_draw.specs.Small.{HasWidths};

use crate::inverters::{COLUMN, PINS};
use cell_draw::{DrawFault, Drawing, MOST_X, draw_base};
use cell_num::NoMemory;
use row_compact::{even_lines, lines_of, x_of};
use row_model::Arrangement;
use row_place::{Placement, place};
use std::alloc::Global;
use std::test::Fail;

// A row of 32 columns, all of them the inverter's.
fn wide(alloc: Global) -> Result<Arrangement, NoMemory>
    ensures columns { IfOk result (All IsColumn) }
    ensures widths { IfOk result (All HasWidths) }
    ensures few { IfOk result (λ row. length row ≤ 32) }
{
    let mut row = Arrangement::new(alloc);
    row.extend(&[COLUMN; 32])?;
    Ok(row)
}

// Its rows alone on even lines, with room for 26 tracks.
#[tactic(auto, using(crate::proofs::Spread::spread_lines))]
fn base_of(alloc: Global, placement: &Placement) -> Result<Drawing, DrawFault>
    requires placement { IsPlacement placement.now }
    requires widths { All HasWidths placement.now.row }
{
    let xs = even_lines(alloc, lines_of(placement))?;
    if x_of(xs.as_slice(), lines_of(placement) - 1) > MOST_X {
        return Err(DrawFault::NoMemory);
    }
    draw_base(alloc, &PINS, placement, 26, &xs, 0)
}

fn base(alloc: Global) -> Result<Drawing, DrawFault> {
    let row = wide(alloc)?;
    let placement = place(alloc, &row);
    drop(row);
    base_of(alloc, &placement?)
}

#[test]
fn draws_a_wide_base(rt: HostRuntime) -> Result<(), Fail> {
    let drawing = base(rt.alloc())?;
    let sizes = (drawing.width, drawing.height, drawing.shapes.rects.len());
    drop(drawing);
    assert!(rt; sizes == (1780, 518, 69));
    Ok(())
}
