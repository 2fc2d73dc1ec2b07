// Worked examples of the crates below `cell_run`. They are here, since a crate with tests is proved twice.
#![tactic(auto)]

#[cfg(test)]
mod bases;
#[cfg(test)]
mod chains;
#[cfg(test)]
mod channels;
#[cfg(test)]
mod columns;
#[cfg(test)]
mod counts;
#[cfg(test)]
mod desks;
#[cfg(test)]
mod drawings;
#[cfg(test)]
mod elements;
#[cfg(test)]
mod geometry;
#[cfg(test)]
mod inverters;
#[cfg(test)]
mod lengths;
#[cfg(test)]
mod libraries;
#[cfg(test)]
mod logs;
#[cfg(test)]
mod macros;
#[cfg(test)]
mod nets;
#[cfg(test)]
mod numbers;
#[cfg(test)]
mod piece_drawings;
#[cfg(test)]
mod piece_firsts;
#[cfg(test)]
mod pieces;
#[cfg(test)]
mod pin_places;
#[cfg(test)]
mod records;
#[cfg(test)]
mod references;
#[cfg(test)]
mod rows;
#[cfg(test)]
mod rules;
#[cfg(test)]
mod searches;
#[cfg(test)]
mod texts;
#[cfg(test)]
mod track_lemmas;
