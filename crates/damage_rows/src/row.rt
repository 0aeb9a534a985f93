//! One row of the file: a table of cases.

use crate::call::Scene;
use crate::journals::Kept;
use crate::networks::{Rule, try_fronts, try_padded, try_values};
use crate::states::states_of;
use crate::tally::Tally;
use crate::troubles::{try_failures, try_pieces, try_stops};
use std::alloc::{AllocError, Global};
use std::{fs, io};

/// The numbers between commas, up to the first word that is none.
fn numbers_of(alloc: Global, text: &str) -> Result<Vec<usize>, AllocError> {
    let mut numbers = Vec::new(alloc);
    for word in text.split(',') {
        match word.parse::<usize>() {
            Ok(number) => numbers.push(number)?,
            Err(_) => return Ok(numbers),
        }
    }
    Ok(numbers)
}

/// The bytes of these numbers between commas, up to the first word that is none.
fn bytes_of(alloc: Global, text: &str) -> Result<Vec<u8>, AllocError> {
    let mut bytes = Vec::new(alloc);
    for word in text.split(',') {
        match word.parse::<u8>() {
            Ok(byte) => bytes.push(byte)?,
            Err(_) => return Ok(bytes),
        }
    }
    Ok(bytes)
}

/// The journal of this name, its states and its gates.
fn kept_of(rt: &HostRuntime, journal: &str, states: &str, gates: &str) -> io::Result<Kept> {
    Ok(Kept {
        bytes: fs::read(rt, journal)?,
        gates: numbers_of(rt.alloc(), gates)?,
        states: states_of(rt, states)?,
    })
}

/// A call of these words over the journal of this name. Each word that is the name of a file is a file of the call too.
fn scene_of(rt: &HostRuntime, journal: &str, words: &[&str]) -> io::Result<Scene> {
    let alloc = rt.alloc();
    let mut scene = Scene::new(alloc, words)?;
    scene.journal = fs::read(rt, journal)?;
    for word in words.iter().skip(1) {
        if let Ok(bytes) = fs::read(rt, word) {
            scene.add_file(alloc, word, bytes)?;
        }
    }
    Ok(scene)
}

/// Tries a network with each of these values in the place of each byte.
fn tried_values(
    rt: &HostRuntime,
    rule: Rule,
    net: &str,
    values: &str,
    tally: &mut Tally,
) -> io::Result<()> {
    let values = bytes_of(rt.alloc(), values)?;
    let text = fs::read(rt, net)?;
    try_values(rt.alloc(), text.as_slice(), rule, values.as_slice(), tally)?;
    Ok(())
}

/// Tries a table over a network. Whether these words name one.
fn tried_network(rt: &HostRuntime, words: &[&str], tally: &mut Tally) -> io::Result<bool> {
    let alloc = rt.alloc();
    match words {
        ["fronts", net] => try_fronts(alloc, fs::read(rt, net)?.as_slice(), tally)?,
        ["strange", net, values] => tried_values(rt, Rule::Strange, net, values, tally)?,
        ["touched", net, values] => tried_values(rt, Rule::Touched, net, values, tally)?,
        ["padded", net, length, fault @ ..] => {
            let Ok(length) = length.parse::<usize>() else {
                return Ok(false);
            };
            try_padded(alloc, fs::read(rt, net)?.as_slice(), length, fault, tally)?;
        }
        _ => return Ok(false),
    }
    Ok(true)
}

/// Tries a table over a journal. Whether these words name one.
fn tried_journal(rt: &HostRuntime, words: &[&str], tally: &mut Tally) -> io::Result<bool> {
    let alloc = rt.alloc();
    match words {
        ["cuts", journal, states, gates] => {
            kept_of(rt, journal, states, gates)?.try_cuts(alloc, tally)?;
        }
        ["spoiled", journal, states, gates, values] => {
            let values = bytes_of(alloc, values)?;
            kept_of(rt, journal, states, gates)?.try_values(alloc, values.as_slice(), tally)?;
        }
        ["patched", journal, states, from, bytes, at, word] => {
            let (Ok(from), Ok(at)) = (from.parse::<usize>(), at.parse::<usize>()) else {
                return Ok(false);
            };
            let bytes = bytes_of(alloc, bytes)?;
            let kept = kept_of(rt, journal, states, "")?;
            kept.try_patched(alloc, from, bytes.as_slice(), at, word, tally)?;
        }
        _ => return Ok(false),
    }
    Ok(true)
}

/// Tries a table over a call. Whether these words name one.
fn tried_call(rt: &HostRuntime, words: &[&str], tally: &mut Tally) -> io::Result<bool> {
    let alloc = rt.alloc();
    match words {
        ["failures", piece, journal, words @ ..] => {
            let Ok(piece) = piece.parse::<usize>() else {
                return Ok(false);
            };
            let mut scene = scene_of(rt, journal, words)?;
            scene.reads = piece;
            scene.writes = piece;
            try_failures(alloc, &scene, tally)?;
        }
        ["stops", journal, states, words @ ..] => {
            let states = states_of(rt, states)?;
            try_stops(
                alloc,
                &scene_of(rt, journal, words)?,
                states.as_slice(),
                tally,
            )?;
        }
        ["pieces", journal, words @ ..] => {
            try_pieces(alloc, &mut scene_of(rt, journal, words)?, tally)?;
        }
        _ => return Ok(false),
    }
    Ok(true)
}

/// Tries the table of these words. Whether they name one:
///
/// - `fronts NET`, `strange NET VALUES`, `touched NET VALUES`, `padded NET LENGTH FAULT`: a network that is cut, changed or long;
/// - `cuts JOURNAL STATES GATES`, `spoiled JOURNAL STATES GATES VALUES`, `patched JOURNAL STATES FROM BYTES AT WORD`: a journal
///   that is cut or changed;
/// - `failures PIECE JOURNAL` and the words of a call, `stops JOURNAL STATES` and the words, `pieces JOURNAL` and the words: a call
///   of which something fails, stops, or goes by few bytes.
pub(crate) fn tried(rt: &HostRuntime, words: &[&str], tally: &mut Tally) -> io::Result<bool> {
    if tried_network(rt, words, tally)? {
        return Ok(true);
    }
    if tried_journal(rt, words, tally)? {
        return Ok(true);
    }
    tried_call(rt, words, tally)
}
