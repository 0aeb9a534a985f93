//! Prints the lines of a load: the words are a file with a network, a seed, and how many lines.
#![tactic(auto)]

ghost use Rattle.std.specs.Prelude.{IsTrue};
ghost use Rattle.eon_model.specs.NetworkText.{is_setup};

use eon_base::number::read_u64;
use eon_outside::{Failed, StdoutSink, write_all};
use load_gen::{LineBuf, before_next, drive_line, next_word};
use net_file::read_net;
use net_setup::NetSetup;
use std::{env, fs, io};

/// The most lines that are printed.
const MOST_LINES: u64 = 100_000;

// Prints the bytes, and ends the line.
fn print_line(rt: &HostRuntime, bytes: &[u8]) -> Result<(), Failed> {
    let mut out = StdoutSink::new(rt);
    write_all(&mut out, bytes)?;
    write_all(&mut out, b"\n")
}

/// Prints the first lines of the load of the seed.
fn print_lines(rt: &HostRuntime, setup: &NetSetup, seed: u64, count: u32) -> Result<(), Failed>
    requires { IsTrue (is_setup setup.now) }
{
    let mut line = LineBuf::new();
    let mut before = 0;
    let mut word = next_word(seed);
    for i in 1..=count {
        drive_line(setup, before, word, i, &mut line);
        print_line(rt, line.bytes())?;
        before = before_next(before, word);
        word = next_word(word);
    }
    Ok(())
}

fn main(rt: HostRuntime) -> io::Result<()> {
    let words = env::args(&rt)?.skip(1).collect::<Vec<String>>(rt.alloc())?;
    let [net, seed, count] = words.as_slice() else {
        return Ok(());
    };
    let bytes = fs::read(&rt, net)?;
    let (Ok(setup), Ok(seed), Ok(count)) = (
        read_net(rt.alloc(), bytes.as_slice()),
        read_u64(seed.as_bytes()),
        read_u64(count.as_bytes()),
    ) else {
        return Ok(());
    };
    let count = count.min(MOST_LINES) as u32;
    let _ = print_lines(&rt, &setup, seed, count);
    Ok(())
}
