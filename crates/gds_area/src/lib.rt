// What boundaries and paths of a GDSII file cover where their structures are placed: rectangles of a drawing in grid
// units, or the fault. And how many rectangles and references are taken of a structure.
#![tactic(auto)]

pub mod area;
pub mod even_odd;
pub mod fault;
pub mod laws;
pub mod path;
pub mod placement;
pub mod point;
pub mod progress;
pub mod units;

pub use area::{DrawContext, MOST_RECTANGLES};
pub use even_odd::{add_inside, encloses};
pub use fault::GdsFault;
pub use laws::composed_moves;
pub use path::{Reach, add_path_areas, has_path_areas, past_ends, width};
pub use placement::{Move, Turn, composed};
pub use point::{Point, close, points, read_point, signed, slanted};
pub use progress::{Context, MOST_LEVELS, Origin, Progress, count_one, no_progress, origin_at};
pub use units::{Grid, MOST_PICOMETRES, floor_units};
