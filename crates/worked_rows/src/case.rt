//! One case: what is called, and what has to come out.
ghost use Rattle.worked_rows.specs.Judged.{IsJudged};

use crate::call::{Fault, Place, over_files, over_memory, with_fault};
use crate::files::{FileFault, empty_file, file_of};
use eon_outside::FileShelf;
use net_file::{print_net, read_net};
use std::alloc::{AllocError, Global};

/// The file that holds an empty stream.
const EMPTY: &str = "nothing";

/// The code of a call whose network is refused.
const REFUSED: u8 = 2;

/// A call of the planner: its words, the code that it ends with, and the name of a file that holds what it writes.
#[derive(Drop)]
pub struct Call {
    pub code: u8,
    pub written: String,
    pub words: Vec<String>,
}

/// A call, and what it has to come to.
#[derive(Drop)]
pub enum Case {
    /// The planner called so, over the files of the machine.
    Call(Call),
    /// The planner called so, over a disk in memory that has the bytes of the first file before, and those of the second
    /// one behind the call.
    Journal {
        before: String,
        behind: String,
        call: Call,
    },
    /// The planner called so, over files, output and disk in memory, of which this one call fails.
    Fails {
        fault: Fault,
        call: Call,
    },
    /// The file of this name is made, where it is not there, and has no bytes from now on.
    Emptied {
        name: String,
    },
    /// The network text of this name is read, and printed back as it stands.
    PrintedBack {
        name: String,
    },
    /// The planner called with these words gives its replies in so many writes.
    Writes {
        count: String,
        words: Vec<String>,
    },
    /// The planner refuses the network of this name, and says where and why.
    Refused {
        name: String,
        fault: String,
    },
}

/// What came out of a case.
#[derive(Drop)]
pub enum Outcome {
    /// What is stored.
    AsStored,
    /// Something else: this code, and these bytes.
    Other { code: u8, written: Vec<u8> },
}

/// The words of a line.
fn words_of(alloc: Global, line: &str) -> Result<Vec<String>, AllocError> {
    let mut words = Vec::new(alloc);
    for word in line.split_whitespace() {
        words.push(String::from_str(alloc, word)?)?;
    }
    Ok(words)
}

/// The first word of a line, and the rest of it.
fn first_of(line: &str) -> Result<(&str, &str), FileFault> {
    match line.split_once(' ') {
        Some(parts) => Ok(parts),
        None => Err(FileFault::Text),
    }
}

impl Call {
    /// Reads `CODE FILE` and the words.
    fn read(alloc: Global, line: &str) -> Result<Call, FileFault> {
        let (code, rest) = first_of(line)?;
        let (written, words) = rest.split_once(' ').unwrap_or((rest, ""));
        let Ok(code) = code.parse::<u8>() else {
            return Err(FileFault::Text);
        };
        Ok(Call {
            code,
            written: String::from_str(alloc, written)?,
            words: words_of(alloc, words)?,
        })
    }
}

impl Fault {
    /// Reads `PLACE NUMBER`: which call fails of which object.
    fn read(place: &str, number: &str) -> Result<Fault, FileFault> {
        let place = match place {
            "files" => Place::Files,
            "output" => Place::Output,
            "disk" => Place::Disk,
            _ => return Err(FileFault::Text),
        };
        match number.parse::<u64>() {
            Ok(call) => Ok(Fault { place, call }),
            Err(_) => Err(FileFault::Text),
        }
    }
}

impl Case {
    /// Reads a line: `back FILE`, `refused FILE LINE WORD`, `emptied FILE`, `writes COUNT` and the words of a call,
    /// `journal FILE FILE` and a call, `fails PLACE NUMBER` and a call, or a call, which is `CODE FILE` and its words.
    pub(crate) fn read(alloc: Global, line: &str) -> Result<Case, FileFault> {
        let (first, rest) = first_of(line)?;
        match first {
            "back" => Ok(Case::PrintedBack {
                name: String::from_str(alloc, rest)?,
            }),
            "emptied" => Ok(Case::Emptied {
                name: String::from_str(alloc, rest)?,
            }),
            "refused" => Case::read_refusal(alloc, rest),
            "writes" => Case::read_writes(alloc, rest),
            "journal" => Case::read_journal(alloc, rest),
            "fails" => Case::read_fails(alloc, rest),
            _ => Ok(Case::Call(Call::read(alloc, line)?)),
        }
    }

    /// Reads `FILE LINE WORD`.
    fn read_refusal(alloc: Global, rest: &str) -> Result<Case, FileFault> {
        let (name, fault) = first_of(rest)?;
        Ok(Case::Refused {
            name: String::from_str(alloc, name)?,
            fault: format!(in alloc; "net {fault}\n")?,
        })
    }

    /// Reads `COUNT` and words.
    fn read_writes(alloc: Global, rest: &str) -> Result<Case, FileFault> {
        let (count, words) = first_of(rest)?;
        Ok(Case::Writes {
            count: String::from_str(alloc, count)?,
            words: words_of(alloc, words)?,
        })
    }

    /// Reads `FILE FILE` and a call.
    fn read_journal(alloc: Global, rest: &str) -> Result<Case, FileFault> {
        let (before, rest) = first_of(rest)?;
        let (behind, rest) = first_of(rest)?;
        Ok(Case::Journal {
            before: String::from_str(alloc, before)?,
            behind: String::from_str(alloc, behind)?,
            call: Call::read(alloc, rest)?,
        })
    }

    /// Reads `PLACE NUMBER` and a call.
    fn read_fails(alloc: Global, rest: &str) -> Result<Case, FileFault> {
        let (place, rest) = first_of(rest)?;
        let (number, rest) = first_of(rest)?;
        Ok(Case::Fails {
            fault: Fault::read(place, number)?,
            call: Call::read(alloc, rest)?,
        })
    }
}

/// The code and the text with which a network text is printed back: code 2 and no text where it is refused.
fn printed(alloc: Global, text: &[u8]) -> Result<(u8, Vec<u8>), AllocError> {
    let mut out = Vec::new(alloc);
    let Ok(setup) = read_net(alloc, text) else {
        return Ok((REFUSED, out));
    };
    print_net(&setup, &mut out)?;
    Ok((0, out))
}

/// What `dry` over this network and an empty stream comes to.
fn dry_over(rt: &HostRuntime, network: &str) -> Result<(u8, Vec<u8>), AllocError> {
    let alloc = rt.alloc();
    let mut words = Vec::new(alloc);
    for word in ["dry", network, EMPTY] {
        words.push(String::from_str(alloc, word)?)?;
    }
    let ended = over_files(rt, words.as_slice())?;
    Ok((ended.code, ended.written))
}

/// What came out, beside what was wanted.
fn judged(wanted: u8, stored: &[u8], code: u8, written: Vec<u8>) -> Outcome
    ensures { IsJudged wanted stored.now code written.items result }
{
    if wanted == code && stored == written.as_slice() {
        Outcome::AsStored
    } else {
        Outcome::Other { code, written }
    }
}

/// Tries a call over the files of the machine.
fn outcome_of_call(rt: &HostRuntime, call: &Call) -> Result<Outcome, FileFault> {
    let stored = stored_file(rt, call.written.as_str())?;
    let ended = over_files(rt, call.words.as_slice())?;
    Ok(judged(call.code, stored.as_slice(), ended.code, ended.written))
}

/// Tries a call over a disk in memory. What is on the disk afterwards is compared where the rest is as stored.
fn outcome_over_disk(
    rt: &HostRuntime,
    before: &str,
    behind: &str,
    call: &Call,
) -> Result<Outcome, FileFault> {
    let stored = stored_file(rt, call.written.as_str())?;
    let kept = stored_file(rt, behind)?;
    let ended = over_memory(rt, stored_file(rt, before)?, call.words.as_slice())?;
    match judged(call.code, stored.as_slice(), ended.code, ended.written) {
        Outcome::AsStored => Ok(judged(call.code, kept.as_slice(), ended.code, ended.disk)),
        other => Ok(other),
    }
}

/// Tries a call of which something fails.
fn outcome_with(rt: &HostRuntime, fault: Fault, call: &Call) -> Result<Outcome, FileFault> {
    let stored = stored_file(rt, call.written.as_str())?;
    let ended = with_fault(rt, fault, call.words.as_slice())?;
    Ok(judged(call.code, stored.as_slice(), ended.code, ended.written))
}

/// The bytes of a file, read afresh.
fn stored_file(rt: &HostRuntime, name: &str) -> Result<Vec<u8>, FileFault> {
    file_of(rt.alloc(), &mut FileShelf::new(rt), name)
}

/// Tries the case. The files that are compared are read afresh.
pub(crate) fn outcome_of(rt: &HostRuntime, case: &Case) -> Result<Outcome, FileFault> {
    match case {
        Case::Call(call) => outcome_of_call(rt, call),
        Case::Journal {
            before,
            behind,
            call,
        } => outcome_over_disk(rt, before.as_str(), behind.as_str(), call),
        Case::Fails { fault, call } => outcome_with(rt, *fault, call),
        Case::Emptied { name } => {
            empty_file(rt, name.as_str())?;
            Ok(Outcome::AsStored)
        }
        Case::PrintedBack { name } => {
            let stored = stored_file(rt, name.as_str())?;
            let (ended, given) = printed(rt.alloc(), stored.as_slice())?;
            Ok(judged(0, stored.as_slice(), ended, given))
        }
        Case::Writes { count, words } => {
            let ended = over_files(rt, words.as_slice())?;
            let writes = format!(in rt.alloc(); "{}", ended.writes)?;
            Ok(judged(0, count.as_bytes(), ended.code, writes.into_bytes()))
        }
        Case::Refused { name, fault } => {
            let (ended, given) = dry_over(rt, name.as_str())?;
            Ok(judged(REFUSED, fault.as_bytes(), ended, given))
        }
    }
}
