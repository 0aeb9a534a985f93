//! One row of the file: a change of the sheet, or a question with the answer that is wanted.

use crate::sheet::{Change, Sheet, Wish};
use flex_grid::band::Band;
use flex_grid::units::Units;
use std::alloc::{AllocError, Global};

/// What became of a row.
#[derive(Clone, Copy, Debug, PartialEq, Eq)]
pub enum Outcome {
    /// The change was made.
    Made,
    /// The answer is the one that is wanted.
    AsWanted,
    /// The answer is another one.
    Other { answer: Option<i16> },
    /// It is no row, or what it asks for may not be done.
    Refused,
}

/// The numbers of a text, up to the first word that is none.
fn numbers_of(alloc: Global, text: &str) -> Result<Vec<i16>, AllocError> {
    let mut numbers = Vec::new(alloc);
    for word in text.split_whitespace() {
        match word.parse::<i16>() {
            Ok(number) => numbers.push(number)?,
            Err(_) => return Ok(numbers),
        }
    }
    Ok(numbers)
}

/// The numbers of fibres, up to the first number that is none.
fn fibres_of(alloc: Global, numbers: &[i16]) -> Result<Vec<u8>, AllocError> {
    let mut fibres = Vec::new(alloc);
    for number in numbers {
        match u8::try_from(*number) {
            Ok(fibre) => fibres.push(fibre)?,
            Err(_) => return Ok(fibres),
        }
    }
    Ok(fibres)
}

/// The band of these parts, the lowest and the highest unit of each.
fn band_of(numbers: &[i16]) -> Option<Band> {
    let (first, others) = numbers.split_at_checked(2)?;
    let [lo, hi] = first else {
        return None;
    };
    let mut band = Band::make(*lo, *hi)?;
    for part in others.chunks_exact(2) {
        let [lo, hi] = part else {
            return None;
        };
        band = band.with(*lo, *hi)?;
    }
    Some(band)
}

/// The change of which this is the word.
fn change_of(verb: &str) -> Option<Change> {
    match verb {
        "light" => Some(Change::Light),
        "darken" => Some(Change::Darken),
        "hold" => Some(Change::Hold),
        "let-go" => Some(Change::LetGo),
        _ => None,
    }
}

/// Makes a change: a fibre, the lowest and the highest unit.
fn changed(sheet: &mut Sheet, change: Change, numbers: &[i16]) -> Outcome {
    let [fibre, lo, hi] = numbers else {
        return Outcome::Refused;
    };
    match (u8::try_from(*fibre), Units::make(*lo, *hi)) {
        (Ok(fibre), Some(units)) if sheet.change(change, fibre, units) => Outcome::Made,
        _ => Outcome::Refused,
    }
}

/// Begins a new sheet: how many fibres, and the parts of the band.
fn begun(alloc: Global, sheet: &mut Sheet, numbers: &[i16]) -> Result<Outcome, AllocError> {
    let Some((count, parts)) = numbers.split_first() else {
        return Ok(Outcome::Refused);
    };
    match (u8::try_from(*count), band_of(parts)) {
        (Ok(fibres), Some(band)) => {
            *sheet = Sheet::new(alloc, band, fibres)?;
            Ok(Outcome::Made)
        }
        _ => Ok(Outcome::Refused),
    }
}

/// The least free centre: a width, the least centre that is asked for, and fibres.
fn lowest_of(alloc: Global, sheet: &Sheet, numbers: &[i16]) -> Result<Option<i16>, AllocError> {
    let [width, from, fibres @ ..] = numbers else {
        return Ok(None);
    };
    let fibres = fibres_of(alloc, fibres)?;
    match u16::try_from(*width) {
        Ok(m) => Ok(sheet.lowest(fibres.as_slice(), m, *from)),
        Err(_) => Ok(None),
    }
}

/// What is wished for: a fibre, and the lowest and the highest unit of what would be lit, and of what would be dark.
fn wish_of(numbers: &[i16]) -> Option<Wish> {
    let [fibre, lo, hi, dark_lo, dark_hi] = numbers else {
        return None;
    };
    match (
        u8::try_from(*fibre),
        Units::make(*lo, *hi),
        Units::make(*dark_lo, *dark_hi),
    ) {
        (Ok(fibre), Some(lit), Some(dark)) => Some(Wish { fibre, lit, dark }),
        _ => None,
    }
}

/// The least free centre where all is as wished: a width, the least centre that is asked for, and the wish.
fn lowest_if_of(sheet: &mut Sheet, numbers: &[i16]) -> Option<i16> {
    let [width, from, wish @ ..] = numbers else {
        return None;
    };
    let wish = wish_of(wish)?;
    match u16::try_from(*width) {
        Ok(m) => sheet.lowest_if(&wish, m, *from),
        Err(_) => None,
    }
}

/// The greatest unit that is lit or held: a fibre, and a unit above it.
fn top_of(sheet: &Sheet, numbers: &[i16]) -> Option<i16> {
    let [fibre, unit] = numbers else {
        return None;
    };
    match u8::try_from(*fibre) {
        Ok(fibre) => sheet.top_below(fibre, *unit),
        Err(_) => None,
    }
}

/// The answer beside the word that is wanted: a number, or `none`.
fn judged(want: &str, answer: Option<i16>) -> Outcome {
    let right = match answer {
        Some(n) => want.parse::<i16>() == Ok(n),
        None => want == "none",
    };
    if right {
        Outcome::AsWanted
    } else {
        Outcome::Other { answer }
    }
}

/// Asks a question: its name, what is wanted, and its numbers.
fn asked(alloc: Global, sheet: &mut Sheet, verb: &str, rest: &str) -> Result<Outcome, AllocError> {
    let Some((_name, rest)) = rest.split_once(' ') else {
        return Ok(Outcome::Refused);
    };
    let Some((want, rest)) = rest.split_once(' ') else {
        return Ok(Outcome::Refused);
    };
    let numbers = numbers_of(alloc, rest)?;
    match verb {
        "lowest" => Ok(judged(want, lowest_of(alloc, sheet, numbers.as_slice())?)),
        "lowest-if" => Ok(judged(want, lowest_if_of(sheet, numbers.as_slice()))),
        "top" => Ok(judged(want, top_of(sheet, numbers.as_slice()))),
        _ => Ok(Outcome::Refused),
    }
}

/// Takes one line: `band FIBRES LO HI ..`, one of `light`, `darken`, `hold` and `let-go` with `FIBRE LO HI`,
/// `lowest NAME WANT WIDTH FROM FIBRE ..`, `lowest-if NAME WANT WIDTH FROM FIBRE LO HI LO HI`, or `top NAME WANT FIBRE UNIT`.
pub(crate) fn outcome_of(
    alloc: Global,
    sheet: &mut Sheet,
    line: &str,
) -> Result<Outcome, AllocError> {
    let Some((verb, rest)) = line.split_once(' ') else {
        return Ok(Outcome::Refused);
    };
    if verb == "band" {
        return begun(alloc, sheet, numbers_of(alloc, rest)?.as_slice());
    }
    match change_of(verb) {
        Some(change) => Ok(changed(sheet, change, numbers_of(alloc, rest)?.as_slice())),
        None => asked(alloc, sheet, verb, rest),
    }
}
