//! The modes of the program, and the words that ask for them.
ghost use Rattle.std.specs.Prelude.{◌≡◌, ◌↔◌, ◌∷◌, false, IfOk, IfErr, map, option_map, string_bytes};
ghost use Rattle.clap.specs.Simple.{HasMatchesOf, app_of};
ghost use Rattle.clap.specs.Walk.{rows_of, rule_of};
ghost use Rattle.clap.specs.Matches.{found_of};
ghost use Rattle.clap.specs.Kinds.{FailsBy};
ghost use Rattle.clap.specs.Values.{kind_of};
ghost use Rattle.clap.specs.Faults.{fault_of};
ghost use Rattle.eon_model.specs.Modes.{Task, drive_task, task_of, task_of_two, task_of_three, task_of_values};
ghost use Rattle.plan_words.specs.CommandLine.{eonplan_app, mode_rule, names_rule, values_found};
ghost use Rattle.plan_words.specs.AreWords.{AreWords, AskFor, task_asked};

use clap::error::ErrorKind;
use clap::{Arg, ArgAction, ArgMatches, Command, Error};
use eon_base::number::read_u64;
use std::alloc::{AllocError, Global};

/// The most commands that are made by `drive`.
const MOST_COMMANDS: u64 = 100_000;

/// What the program is asked to do, with the names of its files.
#[derive(Clone, Copy, Debug, PartialEq, Eq)]
pub enum Words<'a> {
    /// To answer a command stream, with no journal.
    Dry {
        net: &'a str,
        commands: &'a str,
    },
    /// To make a journal.
    Init {
        net: &'a str,
        journal: &'a str,
    },
    /// To answer a command stream, and to keep each change in a journal.
    Serve {
        net: &'a str,
        journal: &'a str,
        commands: &'a str,
    },
    /// To list what a journal leads to.
    Replay {
        net: &'a str,
        journal: &'a str,
    },
    /// To answer 1 to 100,000 commands that are made from a seed, and to sum up the replies.
    Drive {
        net: &'a str,
        seed: u64,
        count: u32,
    },
    /// To bind a journal to a wider network.
    Migrate {
        net: &'a str,
        next: &'a str,
        journal: &'a str,
    },
    /// To answer a stream of failures and repairs, on the services of a journal.
    Live {
        net: &'a str,
        journal: &'a str,
        commands: &'a str,
    },
    /// To answer which moves make room, on the services of a journal.
    Room {
        net: &'a str,
        journal: &'a str,
        commands: &'a str,
    },
}

/// Why words ask for nothing.
#[derive(Clone, Copy, Debug, PartialEq, Eq)]
pub enum WordsFault {
    /// They are not the words of a mode.
    Refused,
    /// There was no memory to read them.
    Memory,
}

/// What the words behind the program's name ask for: `dry NET COMMANDS`, `init NET JOURNAL`,
/// `serve NET JOURNAL COMMANDS`, `replay NET JOURNAL`, `drive NET SEED COUNT`, `migrate NET NEXT JOURNAL`,
/// `live NET JOURNAL COMMANDS` or `room NET JOURNAL COMMANDS`. A first `--` only marks that values follow,
/// and a lone `-` is one. Other words are `Refused`; `Memory` is want of memory.
pub fn words_of<'a>(alloc: Global, words: &'a [String]) -> Result<Words<'a>, WordsFault>
    ensures ok { IfOk result (AreWords (map string_bytes words.entry.now)) }
    ensures task { IfOk result (λ w. task_of (map string_bytes words.entry.now) ≡ Some (task_asked w)) }

    // Only words that ask for nothing are refused.
    ensures refused { IfErr result (λ e. e ≡ WordsFault.Refused → (task : Task) → AskFor (map string_bytes words.entry.now) task → ⊥) }
    ensures no_task { IfErr result (λ e. e ≡ WordsFault.Refused → task_of (map string_bytes words.entry.now) ≡ None) }
{
    match matches_from(alloc, words) {
        Ok(matches) => words_found(&matches).ok_or(WordsFault::Refused),
        Err(error) => Err(fault_from(&error)),
    }
}

// The mode, a word that must be there.
fn mode<'a>(alloc: Global) -> Arg<'a>
    ensures rule { rule_of result ≡ mode_rule }
    ensures local { result.global ≡ false }
{
    Arg::new(alloc, "mode")
        .required(true)
        .action(ArgAction::Set)
}

// The names behind it, one or more.
fn names<'a>(alloc: Global) -> Arg<'a>
    ensures rule { rule_of result ≡ names_rule }
    ensures local { result.global ≡ false }
{
    Arg::new(alloc, "names")
        .num_args(1..)
        .action(ArgAction::Append)
}

// The command line.
fn eonplan<'a>(alloc: Global) -> Result<Command<'a>, AllocError>
    ensures { IfOk result (λ c. app_of c ≡ eonplan_app) }
{
    Command::new(alloc, "eonplan")
        .no_binary_name(true)
        .disable_help_flag(true)
        .arg(mode(alloc))?
        .arg(names(alloc))
}

// What clap makes of the words.
fn matches_from<'a>(alloc: Global, words: &'a [String]) -> Result<ArgMatches<'a>, Error>
    ensures fails { FailsBy (fault_of eonplan_app (map string_bytes words.entry.now)) result }
    ensures matches { IfOk result (HasMatchesOf eonplan_app (map string_bytes words.entry.now)) }
{
    eonplan(alloc)?.try_get_matches_from(words)
}

// Why clap did not take the words.
fn fault_from(error: &Error) -> WordsFault
    ensures { (result ≡ WordsFault.Memory) ↔ (kind_of error.now ≡ ErrorKind.OutOfMemory) }
{
    match error.kind() {
        ErrorKind::OutOfMemory => WordsFault::Memory,
        _ => WordsFault::Refused,
    }
}

// What the mode and the names that clap found ask for.
fn words_found<'a>(matches: &ArgMatches<'a>) -> Option<Words<'a>>
    ensures { option_map task_asked result ≡ task_of_values (values_found (rows_of (found_of matches.now))) }
{
    let mode = matches.get_str("mode")?;
    let names = matches.get_strs("names")?;
    words_said(mode, names)
}

// What a mode and its names ask for.
fn words_said<'a>(mode: &str, names: &[&'a str]) -> Option<Words<'a>>
    ensures { option_map task_asked result ≡ task_of_values (mode.now ∷ map (λ name. name.now) names.now) }
{
    match names {
        [net, other] => words_of_two(mode, net, other),
        [net, other, last] => words_of_three(mode, net, other, last),
        _ => None,
    }
}

// What a mode and two names ask for.
fn words_of_two<'a>(mode: &str, net: &'a str, other: &'a str) -> Option<Words<'a>>
    ensures { option_map task_asked result ≡ task_of_two mode.now net.entry.now other.entry.now }
{
    match mode {
        "dry" => Some(Words::Dry {
            net,
            commands: other,
        }),
        "init" => Some(Words::Init {
            net,
            journal: other,
        }),
        "replay" => Some(Words::Replay {
            net,
            journal: other,
        }),
        _ => None,
    }
}

// What a mode and three names ask for.
fn words_of_three<'a>(mode: &str, net: &'a str, other: &'a str, last: &'a str) -> Option<Words<'a>>
    ensures { option_map task_asked result ≡ task_of_three mode.now net.entry.now other.entry.now last.entry.now }
{
    match mode {
        "serve" => Some(Words::Serve {
            net,
            journal: other,
            commands: last,
        }),
        "drive" => drive_words(net, other, last),
        "migrate" => Some(Words::Migrate {
            net,
            next: other,
            journal: last,
        }),
        "live" => Some(Words::Live {
            net,
            journal: other,
            commands: last,
        }),
        "room" => Some(Words::Room {
            net,
            journal: other,
            commands: last,
        }),
        _ => None,
    }
}

// What `drive` is asked for.
fn drive_words<'a>(net: &'a str, seed: &str, count: &str) -> Option<Words<'a>>
    ensures { option_map task_asked result ≡ drive_task net.entry.now seed.now count.now }
{
    let seed = read_u64(seed.as_bytes()).ok()?;
    let count = read_u64(count.as_bytes()).ok()?;
    if count < 1 || count > MOST_COMMANDS {
        return None;
    }
    Some(Words::Drive {
        net,
        seed,
        count: count as u32,
    })
}
