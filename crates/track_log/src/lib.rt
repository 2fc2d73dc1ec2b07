// The text of certificates of tracks: lemmas that rows with few gaps need some number of tracks, or can't be wired.
#![tactic(auto)]

mod above;
mod certificate;
mod course;
mod item;
mod line;
mod list;
mod read;
mod tracks;
mod write;

pub use certificate::{Course, MOST_TRACKS, TrackCertificate};
pub use course::course_of;
pub use read::{read_tracks, read_tracks_by};
pub use write::{write_tracks, write_tracks_by};
