// The first row that has tracks below a limit, or lemmas that certify that none has. The first row on the fewest
// tracks, with its routing.
#![tactic(auto)]

mod ahead;
mod by_state;
mod closed;
mod descent;
mod ends;
mod fewest;
mod known;
mod laws;
mod limit;
mod lowest;
mod marks;
mod onward;
mod order;
mod progress;

pub use fewest::{Fewest, fewest_tracks, fewest_tracks_by};
pub use laws::sound_pins;
pub use limit::{Limit, search_limit, search_limit_by};
pub use lowest::{Lowest, lowest_row};
