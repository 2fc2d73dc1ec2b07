// Worked examples of whole calls. They are here, since a crate with tests is proved twice.
#![tactic(auto)]

#[cfg(test)]
mod agrees;
#[cfg(test)]
mod bench_texts;
#[cfg(test)]
mod bytes;
#[cfg(test)]
mod calls;
#[cfg(test)]
mod cells;
#[cfg(test)]
mod channels;
#[cfg(test)]
mod crowded_gates;
#[cfg(test)]
mod damaged;
#[cfg(test)]
mod desks;
#[cfg(test)]
mod dogleg_cells;
#[cfg(test)]
mod doglegs;
#[cfg(test)]
mod extract;
#[cfg(test)]
mod faults;
#[cfg(test)]
mod gap_rows;
#[cfg(test)]
mod given_rows;
#[cfg(test)]
mod logs;
#[cfg(test)]
mod low_calls;
#[cfg(test)]
mod low_cells;
#[cfg(test)]
mod low_doglegs;
#[cfg(test)]
mod low_rows;
#[cfg(test)]
mod make;
#[cfg(test)]
mod open_trails;
#[cfg(test)]
mod rows;
#[cfg(test)]
mod setup;
#[cfg(test)]
mod sizes;
#[cfg(test)]
mod tapped;
#[cfg(test)]
mod taps;
#[cfg(test)]
mod track_checks;
#[cfg(test)]
mod trail_cells;
#[cfg(test)]
mod trails;
#[cfg(test)]
mod turn_checks;
#[cfg(test)]
mod versions;
#[cfg(test)]
mod words;
