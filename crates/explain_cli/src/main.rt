//! The program `explain`: the real outside for the one call of `explain_top`.
#![tactic(auto)]

use explain_top::explain;
use std::env;
use std::io::ErrorKind;
use std::process::ExitCode;
use umix_base::{RealOut, RealShelf};

/// There was no memory for the list of words.
const NO_MEMORY: u8 = 9;

/// The system didn't hand the arguments out.
const NO_ARGUMENTS: u8 = 10;

/// Does what the program's arguments ask for over the system's files and streams, and ends with the
/// number of the status; with 10 where the system doesn't hand the arguments out, and with 9 where
/// their list finds no memory, in both cases without a word written. See docs/EXPLAIN.md.
fn main(rt: HostRuntime) -> ExitCode {
    let arguments = match env::args(&rt) {
        Ok(arguments) => arguments,
        Err(error) if error.kind() == ErrorKind::OutOfMemory => return ExitCode::from(NO_MEMORY),
        Err(_) => return ExitCode::from(NO_ARGUMENTS),
    };
    let Ok(words) = arguments.skip(1).collect::<Vec<String>>(rt.alloc()) else {
        return ExitCode::from(NO_MEMORY);
    };
    let mut shelf = RealShelf::new(&rt);
    let mut out = RealOut::new(rt.stdout());
    let mut err = RealOut::new(rt.stderr());
    let status = explain(rt.alloc(), &words, &mut shelf, &mut out, &mut err);
    ExitCode::from(status.number())
}
