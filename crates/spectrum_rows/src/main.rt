//! Replays the rows of a file over the maps of the spectrum, and compares each answer with the one that stands in the row:
//! the file that is named, or `rows` beside it. A line that begins with `ok` stands for each answer that came out so,
//! `wrong` for each other one.
#![tactic(auto)]

mod row;
mod sheet;

use flex_grid::band::Band;
use row::{Outcome, outcome_of};
use sheet::Sheet;
use std::process::ExitCode;
use std::{env, fs, io};

/// The file with one row a line, where none is named.
const ROWS: &str = "rows";

/// Takes one line, and prints what came out.
fn report(rt: &HostRuntime, sheet: &mut Sheet, line: &str) -> io::Result<()> {
    match outcome_of(rt.alloc(), sheet, line)? {
        Outcome::Made => {}
        Outcome::AsWanted => println!(rt; "ok {line}")?,
        Outcome::Other { answer: Some(n) } => println!(rt; "wrong {line}: {n}")?,
        Outcome::Other { answer: None } => println!(rt; "wrong {line}: none")?,
        Outcome::Refused => println!(rt; "refused {line}")?,
    }
    Ok(())
}

/// Takes each line of the file.
fn report_all(rt: &HostRuntime, name: &str) -> io::Result<()> {
    let text = fs::read_to_string(rt, name)?;
    let Some(band) = Band::make(0, 0) else {
        return Ok(());
    };
    let mut sheet = Sheet::new(rt.alloc(), band, 1)?;
    for line in text.lines() {
        report(rt, &mut sheet, line)?;
    }
    Ok(())
}

/// The first word that the program is called with.
fn named(rt: &HostRuntime) -> io::Result<Option<String>> {
    Ok(env::args(rt)?.nth(1))
}

fn main(rt: HostRuntime) -> io::Result<()> {
    match named(&rt)? {
        Some(name) => report_all(&rt, name.as_str()),
        None => report_all(&rt, ROWS),
    }
}
