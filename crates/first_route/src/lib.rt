// The first legal routing of a placement on some number of tracks.
#![tactic(auto)]

pub mod first;
mod fit;
pub mod laws;
mod room;
pub mod stop;
pub mod way;

pub use first::first_routing;
pub use laws::one_first;
pub use stop::FirstStop;
pub use way::first_way;
