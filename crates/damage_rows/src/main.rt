//! Calls the planner over networks and journals that are cut or changed, with calls that fail, and on a disk that stops, as the
//! file `rows` says, one table of cases a line. A line that begins with `ok` stands for each table of which every case came out as
//! it has to; `wrong` stands before any other, and each case that came out otherwise is told below it.
#![tactic(auto)]

mod call;
mod journals;
mod networks;
mod row;
mod states;
mod tally;
mod troubles;

use row::tried;
use std::{fs, io, str};
use tally::{Tally, Wrong};

/// The file with one table of cases a line.
const ROWS: &str = "rows";

/// Prints a case that came out otherwise than it has to.
fn print_wrong(rt: &HostRuntime, wrong: &Wrong) -> io::Result<()> {
    println!(rt;
        "at {} with {}: status {}",
        wrong.at, wrong.with, wrong.code
    )?;
    match str::from_utf8(wrong.written.as_slice()) {
        Ok(text) => print!(rt; "{text}"),
        Err(_) => println!(rt; "no text"),
    }
}

/// Prints what came of the cases of a row.
fn print_tally(rt: &HostRuntime, line: &str, wanted: u64, tally: &Tally) -> io::Result<()> {
    if tally.wrong.is_empty() && tally.cases == wanted {
        return println!(rt; "ok {line}");
    }
    println!(rt; "wrong {line}: {} cases", tally.cases)?;
    for wrong in &tally.wrong {
        print_wrong(rt, wrong)?;
    }
    Ok(())
}

/// Tries the cases of a row: how many they have to be, and the words of the table.
fn report(rt: &HostRuntime, line: &str) -> io::Result<()> {
    let words = line.split_whitespace().collect::<Vec<&str>>(rt.alloc())?;
    let Some((count, words)) = words.as_slice().split_first() else {
        return Ok(());
    };
    let mut tally = Tally::new(rt.alloc());
    match count.parse::<u64>() {
        Ok(wanted) if tried(rt, words, &mut tally)? => print_tally(rt, line, wanted, &tally),
        _ => println!(rt; "refused {line}"),
    }
}

fn main(rt: HostRuntime) -> io::Result<()> {
    let rows = fs::read_to_string(&rt, ROWS)?;
    for line in rows.lines() {
        report(&rt, line)?;
    }
    Ok(())
}
