//! Replays rows over the shared backups of a network, and compares each answer with the one that stands in the row: the words
//! are a file with a network and one with rows. A line that begins with `ok` stands for each answer that came out so, `wrong`
//! for each other one.
#![tactic(auto)]

mod backups;
mod row;

use backups::Backups;
use net_file::read_net;
use row::{Answer, Outcome, outcome_of};
use std::{env, fs, io};

/// Takes one line, and prints what came out.
fn report(rt: &HostRuntime, backups: &mut Backups, line: &str) -> io::Result<()> {
    let words = line.split_whitespace().collect::<Vec<&str>>(rt.alloc())?;
    match outcome_of(rt.alloc(), backups, words.as_slice())? {
        Outcome::Added => Ok(()),
        Outcome::AsWanted => println!(rt; "ok {line}"),
        Outcome::Other {
            answer: Answer::Fits(fits),
        } => println!(rt; "wrong {line}: {fits}"),
        Outcome::Other {
            answer: Answer::Centre(Some(n)),
        } => println!(rt; "wrong {line}: {n}"),
        Outcome::Other {
            answer: Answer::Centre(None),
        } => println!(rt; "wrong {line}: none"),
        Outcome::Refused => println!(rt; "refused {line}"),
    }
}

fn main(rt: HostRuntime) -> io::Result<()> {
    let words = env::args(&rt)?.skip(1).collect::<Vec<String>>(rt.alloc())?;
    let [net, rows] = words.as_slice() else {
        return println!(rt; "refused: the words are NET ROWS");
    };
    let bytes = fs::read(&rt, net)?;
    let Ok(setup) = read_net(rt.alloc(), bytes.as_slice()) else {
        return println!(rt; "refused: {net} is no network");
    };
    let mut backups = Backups::new(rt.alloc(), &setup.net, setup.band)?;
    let text = fs::read_to_string(&rt, rows)?;
    for line in text.lines() {
        report(&rt, &mut backups, line)?;
    }
    Ok(())
}
