// Makes standard cells from SPICE subcircuits.
#![tactic(auto)]

mod process;

use cell_io::HostDesk;
use cell_run::{Status, run};
use process::{exit_code, words_after_name};
use std::env;
use std::io::ErrorKind;
use std::process::ExitCode;

fn main(rt: HostRuntime) -> ExitCode {
    // Arguments that are no text are wrong words, and are told so.
    let words = match env::args(&rt) {
        Ok(args) => words_after_name(rt.alloc(), args),
        Err(error) if error.kind() == ErrorKind::OutOfMemory => return exit_code(Status::NoMemory),
        Err(_) => Ok(Vec::new(rt.alloc())),
    };
    let Ok(words) = words else {
        return exit_code(Status::NoMemory);
    };
    let mut desk = HostDesk::new(&rt);
    exit_code(run(rt.alloc(), &words, &mut desk))
}
