// Searches the least row of a cell by the bound of a log's version, and says what that took: for benchmarks/.
#![tactic(auto)]

mod inputs;
mod measurement;

use cell_io::{HostDesk, say_all};
use cell_num::Bytes;
use inputs::{Asked, fingers_of};
use measurement::Measurement;
use row_search::{StopKept, search_kept};
use std::alloc::Global;
use std::env;
use std::process::ExitCode;

// The report, or nothing where a word is wrong, a file is refused or memory ends.
fn report(alloc: Global, words: &[String], desk: &mut HostDesk<'_, HostRuntime>) -> Option<Bytes> {
    let asked = Asked::from_words(words)?;
    let (fingers, budget) = fingers_of(alloc, &asked, desk)?;
    let measurement = match search_kept(alloc, &fingers, &asked.bound, budget) {
        Ok(found) => Measurement::of_found(&found),
        Err(StopKept::Unfinished { kept, proved }) => Measurement::Budget {
            lemmas: kept.len(),
            proved,
        },
        Err(StopKept::NoMemory) => return None,
    };
    measurement.report(alloc).ok()
}

fn main(rt: HostRuntime) -> ExitCode {
    let mut desk = HostDesk::new(&rt);
    let Ok(args) = env::args(&rt) else {
        return ExitCode::FAILURE;
    };
    let Ok(words) = args.skip(1).collect(rt.alloc()) else {
        return ExitCode::FAILURE;
    };
    let words: Vec<String> = words;
    match report(rt.alloc(), &words, &mut desk) {
        Some(text) if say_all(&mut desk, text.as_slice()).is_ok() => ExitCode::SUCCESS,
        _ => ExitCode::FAILURE,
    }
}
