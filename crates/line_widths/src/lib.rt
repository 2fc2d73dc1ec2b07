// Laws on the width of a routed row: the space from each line to the next one, what a state tells of these spaces, and
// how it is shown that no row of a cell is as narrow as that.
#![tactic(auto)]

pub mod laws;
pub mod state_laws;
pub mod width_laws;

pub use laws::lines_by_spaces;
pub use state_laws::{spaces_by_lines, spaces_by_states};
pub use width_laws::too_wide;
