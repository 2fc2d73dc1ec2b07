// The positions of the lines of a routed row.
#![tactic(auto)]

pub mod allowed;
pub mod distance;
pub mod laws;
pub mod lines;
pub mod measure;

pub use allowed::{distances, lines_of, wiring_distances};
pub use distance::{Distance, DistanceList, Distances, LineXs, MOST_LINES, x_of};
pub use laws::measure_numbers;
pub use lines::{even_lines, least_lines, one_least};
pub use measure::{CONTACT_SPACE, LINE_SPACE, SIDE_SPACE, STRETCH_SPACE};
