//! Reads events and journals of bytes put together by hand, opens and appends over a disk in memory, stops the disk at each
//! call, and prints what is found then.
#![tactic(auto)]

mod appended;
mod bytes;
mod events;
mod found;
mod held;
mod opened;
mod stop;
mod stopped;

use appended::print_appended;
use events::print_events;
use found::print_journals;
use std::process::ExitCode;
use stop::Stop;
use stopped::print_stopped;

fn print_all(rt: &HostRuntime) -> Result<(), Stop> {
    print_events(rt)?;
    print_journals(rt)?;
    print_appended(rt)?;
    print_stopped(rt)
}

fn main(rt: HostRuntime) -> ExitCode {
    match print_all(&rt) {
        Ok(()) => ExitCode::SUCCESS,
        Err(_) => ExitCode::FAILURE,
    }
}
