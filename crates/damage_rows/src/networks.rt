//! Networks that are cut short, changed in one byte, or as long as a network may be.

use crate::call::{Ended, Scene, Trouble, run};
use crate::tally::Tally;
use std::alloc::{AllocError, Global};
use std::str;

/// The code of a network that is refused.
const REFUSED: u8 = 2;

/// What is known of the fault of a network of which one byte is changed.
#[derive(Clone, Copy, Debug, PartialEq, Eq)]
pub(crate) enum Rule {
    /// The byte may stand in no field, so that the line is at fault in which it stands: the last byte leaves it `short`, one in the
    /// first field or right behind it is no `word`, and any other one is at fault in its `form`.
    Strange,
    /// Some line is at fault, this one or a later one, or none is.
    Touched,
}

/// These bytes, with another one at this place.
pub(crate) fn with_byte(
    alloc: Global,
    bytes: &[u8],
    at: usize,
    value: u8,
) -> Result<Vec<u8>, AllocError> {
    let mut changed = bytes.to_vec(alloc)?;
    if let Some(byte) = changed.get_mut(at) {
        *byte = value;
    }
    Ok(changed)
}

/// What a call comes to that reads this network, and no command.
fn read_alone(alloc: Global, network: Vec<u8>) -> Result<Ended, AllocError> {
    let mut scene = Scene::new(alloc, &["dry", "N", "C"])?;
    scene.add_file(alloc, "N", network)?;
    scene.add_file(alloc, "C", Vec::new(alloc))?;
    run(alloc, &scene, Trouble::Nothing)
}

/// The number of the line in which the byte at this place stands, counted from 1.
fn line_of(text: &[u8], at: usize) -> u64 {
    let mut line: u64 = 1;
    for byte in text.iter().take(at) {
        if *byte == b'\n' {
            line = line.saturating_add(1);
        }
    }
    line
}

/// Whether the byte at this place stands in the first field of its line, or right behind it.
fn is_in_first_field(text: &[u8], at: usize) -> bool {
    let mut is_in = true;
    for byte in text.iter().take(at) {
        is_in = match byte {
            b'\n' => true,
            b' ' => false,
            _ => is_in,
        };
    }
    is_in
}

/// The word of the fault where a byte that may stand in no field stands at this place.
fn word_of(text: &[u8], at: usize) -> &'static str {
    if at.saturating_add(1) == text.len() {
        return "short";
    }
    if is_in_first_field(text, at) {
        "word"
    } else {
        "form"
    }
}

/// Whether this is the word of a fault.
fn is_word(word: &str) -> bool {
    matches!(
        word,
        "rest"
            | "short"
            | "word"
            | "form"
            | "range"
            | "many"
            | "order"
            | "twice"
            | "unknown"
            | "selfend"
            | "groups"
    )
}

/// The number of the line that is told of a network that is refused.
fn told_line(written: &[u8]) -> Option<u64> {
    let Ok(text) = str::from_utf8(written) else {
        return None;
    };
    let told = text.strip_prefix("net ")?.strip_suffix("\n")?;
    match told.split_once(' ') {
        Some((line, word)) if is_word(word) => line.parse::<u64>().ok(),
        _ => None,
    }
}

/// Whether a network was accepted, or refused at this line or a later one.
fn is_at_or_behind(ended: &Ended, line: u64) -> bool {
    if ended.code != REFUSED {
        return ended.is(0, b"");
    }
    match told_line(ended.written.as_slice()) {
        Some(told) => line <= told,
        None => false,
    }
}

/// Whether it came out as the rule says that the byte at this place was changed.
fn is_right(
    alloc: Global,
    rule: Rule,
    text: &[u8],
    at: usize,
    ended: &Ended,
) -> Result<bool, AllocError> {
    let line = line_of(text, at);
    match rule {
        Rule::Strange => {
            let told = format!(in alloc; "net {line} {}\n", word_of(text, at))?;
            Ok(ended.is(REFUSED, told.as_bytes()))
        }
        Rule::Touched => Ok(is_at_or_behind(ended, line)),
    }
}

/// Tries the network with this value in the place of each byte.
fn try_value(
    alloc: Global,
    text: &[u8],
    rule: Rule,
    value: u8,
    tally: &mut Tally,
) -> Result<(), AllocError> {
    for (at, byte) in text.iter().enumerate() {
        let ended = read_alone(alloc, with_byte(alloc, text, at, value)?)?;
        let is_right = if *byte == value {
            ended.is(0, b"")
        } else {
            is_right(alloc, rule, text, at, &ended)?
        };
        tally.note(at as u64, u64::from(value), is_right, ended)?;
    }
    Ok(())
}

/// Tries the network with each of these values in the place of each byte.
pub(crate) fn try_values(
    alloc: Global,
    text: &[u8],
    rule: Rule,
    values: &[u8],
    tally: &mut Tally,
) -> Result<(), AllocError> {
    for value in values {
        try_value(alloc, text, rule, *value, tally)?;
    }
    Ok(())
}

/// Tries each proper front of the network: the line in which it ends is short.
pub(crate) fn try_fronts(alloc: Global, text: &[u8], tally: &mut Tally) -> Result<(), AllocError> {
    for end in 0..text.len() {
        let ended = read_alone(alloc, text[..end].to_vec(alloc)?)?;
        let told = format!(in alloc; "net {} short\n", line_of(text, end))?;
        let is_right = ended.is(REFUSED, told.as_bytes());
        tally.note(end as u64, 0, is_right, ended)?;
    }
    Ok(())
}

/// Tries the network with as many spaces behind it as make it so long. What is to be told is the line and the word, or `long`.
pub(crate) fn try_padded(
    alloc: Global,
    text: &[u8],
    length: usize,
    fault: &[&str],
    tally: &mut Tally,
) -> Result<(), AllocError> {
    let mut padded = text.to_vec(alloc)?;
    padded.resize(length, b' ')?;
    let ended = read_alone(alloc, padded)?;
    let mut told = String::from_str(alloc, "net")?;
    for word in fault {
        told.push(' ')?;
        told.push_str(word)?;
    }
    told.push('\n')?;
    let is_right = ended.is(REFUSED, told.as_bytes());
    tally.note(length as u64, 0, is_right, ended)
}
