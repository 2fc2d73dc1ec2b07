// Routings by pieces line by line: tracks that nets may change at their node lines, and these along paths of states.
#![tactic(auto)]

pub mod laws;
pub mod state_laws;

pub use laws::pieces_by_lines;
pub use state_laws::pieces_by_states;
