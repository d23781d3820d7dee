//! Runs the command lines of the file `commands`, and writes each before what it writes, as one who types them
//! would see it.
#![tactic(auto)]

use codex_top::{Status, codex};
use std::process::ExitCode;
use std::{fs, io};
use umix_base::{RealIn, RealOut, RealShelf, Source, SureSource};

/// The file of the command lines, which lies where the program runs.
const COMMANDS: &str = "commands";

/// Begins each command line.
const PROMPT: &str = "$";

/// Stands before the name of the file from which a command line takes its input. One without it takes the
/// program's.
const FROM: &str = "<";

/// Does what the words ask for on this input, over the system's files and streams; the line of the status
/// goes to the output too.
fn command_on<I: Source>(rt: &HostRuntime, words: &Vec<String>, input: &mut I) -> Status {
    let mut shelf = RealShelf::new(rt);
    let mut out = RealOut::new(rt.stdout());
    let mut err = RealOut::new(rt.stdout());
    codex(rt.alloc(), words, &mut shelf, input, &mut out, &mut err)
}

/// Does what a command line asks for, and writes the status where the work wasn't done.
fn perform(rt: &HostRuntime, words: &Vec<String>, file: &Option<String>) -> io::Result<()> {
    let mut line = String::from_str(rt.alloc(), PROMPT)?;
    for word in words.iter() {
        line.push(' ')?;
        line.push_str(word.as_str())?;
    }
    println!(rt; "{line}")?;
    let status = match file {
        Some(name) => {
            let bytes = fs::read(rt, name.as_str())?;
            command_on(rt, words, &mut SureSource::new(bytes))
        }
        None => command_on(rt, words, &mut RealIn::new(rt.stdin())),
    };
    if status != Status::Done {
        let number = status.number();
        println!(rt; "status {number}")?;
    }
    Ok(())
}

/// Performs the command lines one after the other.
fn perform_all(rt: &HostRuntime) -> io::Result<()> {
    let text = fs::read_to_string(rt, COMMANDS)?;
    let mut words = Vec::new(rt.alloc());
    let mut file = None;
    let mut is_file = false;
    for word in text.split_whitespace() {
        if word == PROMPT {
            if !words.is_empty() {
                perform(rt, &words, &file)?;
            }
            words = Vec::new(rt.alloc());
            file = None;
        } else if is_file {
            file = Some(String::from_str(rt.alloc(), word)?);
        } else if word != FROM {
            words.push(String::from_str(rt.alloc(), word)?)?;
        }
        is_file = word == FROM;
    }
    perform(rt, &words, &file)
}

/// Ends with 0, or with 1 where the outside or memory failed the program itself.
fn main(rt: HostRuntime) -> ExitCode {
    match perform_all(&rt) {
        Ok(()) => ExitCode::SUCCESS,
        Err(_) => ExitCode::FAILURE,
    }
}
