//! The program `eonplan`: hands its words, the files of the machine, standard output and a file for the journal to
//! `plan_main`, and ends with the status. It prints nothing itself.
#![tactic(auto)]

use eon_disk::FileDeck;
use eon_outside::{FileShelf, StdoutSink};
use plan_serve::plan_main;
use std::alloc::Global;
use std::process::ExitCode;
use std::rt::Env;
use std::{env, io};

/// There is no memory for the words.
const NO_MEMORY: u8 = 6;

/// The words cannot be had.
const NO_WORDS: u8 = 10;

/// The words after the program's name.
fn words_given<R: Env + Alloc<A = Global>>(rt: &R) -> io::Result<Vec<String>> {
    Ok(env::args(rt)?.skip(1).collect::<Vec<String>>(rt.alloc())?)
}

fn code_without_words(error: &io::Error) -> u8 {
    match error.kind() {
        io::ErrorKind::OutOfMemory => NO_MEMORY,
        _ => NO_WORDS,
    }
}

fn main(rt: HostRuntime) -> ExitCode {
    let words = match words_given(&rt) {
        Ok(words) => words,
        Err(error) => return ExitCode::from(code_without_words(&error)),
    };
    let mut shelf = FileShelf::new(&rt);
    let mut out = StdoutSink::new(&rt);
    let mut disk = FileDeck::new(&rt);
    let status = plan_main(
        rt.alloc(),
        words.as_slice(),
        &mut shelf,
        &mut out,
        &mut disk,
    );
    ExitCode::from(status.code())
}
