//! One row of the file: a backup that is added, or a question with the answer that is wanted.
ghost use Rattle.std.specs.Prelude.{IfOk, IfSome};
ghost use Rattle.sharing_rows.specs.Backups.{IsBelow};

use crate::backups::{Backup, Backups, risk_of};
use backup_sharing::Units;
use std::alloc::{AllocError, Global};

/// An answer.
#[derive(Clone, Copy, Debug, PartialEq, Eq)]
pub(crate) enum Answer {
    /// Whether a backup fits.
    Fits(bool),
    /// The least centre where one may stand, if there is one.
    Centre(Option<i16>),
}

/// What became of a row.
#[derive(Clone, Copy, Debug, PartialEq, Eq)]
pub(crate) enum Outcome {
    /// The backup was added.
    Added,
    /// The answer is the one that is wanted.
    AsWanted,
    /// The answer is another one.
    Other { answer: Answer },
    /// It is no row, or what it asks for may not be done.
    Refused,
}

/// The numbers between commas, up to the first word that is none.
fn numbers_of(alloc: Global, text: &str) -> Result<Vec<u16>, AllocError> {
    let mut numbers = Vec::new(alloc);
    for word in text.split(',') {
        match word.parse::<u16>() {
            Ok(number) => numbers.push(number)?,
            Err(_) => return Ok(numbers),
        }
    }
    Ok(numbers)
}

/// The numbers of fibres between commas, up to the first word that is none.
fn fibres_of(alloc: Global, text: &str) -> Result<Vec<u8>, AllocError> {
    let mut fibres = Vec::new(alloc);
    for word in text.split(',') {
        match word.parse::<u8>() {
            Ok(fibre) => fibres.push(fibre)?,
            Err(_) => return Ok(fibres),
        }
    }
    Ok(fibres)
}

/// The lowest unit and the highest.
fn units_of(lo: &str, hi: &str) -> Option<Units> {
    match (lo.parse::<i16>(), hi.parse::<i16>()) {
        (Ok(lo), Ok(hi)) => Units::make(lo, hi),
        _ => None,
    }
}

/// The backup of these words: groups, fibres, the lowest unit and the highest.
fn backup_of(alloc: Global, words: &[&str], groups: u16) -> Result<Option<Backup>, AllocError>
    ensures { IfOk result (λ o. IfSome o (λ b. IsBelow groups b.risk)) }
{
    let [risk, fibres, lo, hi] = words else {
        return Ok(None);
    };
    let numbers = numbers_of(alloc, risk)?;
    let fibres = fibres_of(alloc, fibres)?;
    let (Some(risk), Some(units)) = (risk_of(numbers.as_slice(), groups), units_of(lo, hi)) else {
        return Ok(None);
    };
    Ok(Some(Backup {
        risk,
        fibres,
        units,
    }))
}

/// Adds a backup.
fn added(alloc: Global, backups: &mut Backups, words: &[&str]) -> Result<Outcome, AllocError> {
    match backup_of(alloc, words, backups.groups())? {
        Some(backup) if backups.add(&backup) => Ok(Outcome::Added),
        _ => Ok(Outcome::Refused),
    }
}

/// Whether a backup fits.
fn fits(alloc: Global, backups: &Backups, words: &[&str]) -> Result<Option<Answer>, AllocError> {
    match backup_of(alloc, words, backups.groups())? {
        Some(backup) => Ok(backups.fits(&backup).map(Answer::Fits)),
        None => Ok(None),
    }
}

/// The least centre: groups, fibres and a width.
fn lowest(alloc: Global, backups: &Backups, words: &[&str]) -> Result<Option<Answer>, AllocError> {
    let [risk, fibres, width] = words else {
        return Ok(None);
    };
    let numbers = numbers_of(alloc, risk)?;
    let fibres = fibres_of(alloc, fibres)?;
    match (
        risk_of(numbers.as_slice(), backups.groups()),
        width.parse::<u16>(),
    ) {
        (Some(risk), Ok(m)) => {
            Ok(Some(Answer::Centre(backups.lowest(&risk, fibres.as_slice(), m))))
        }
        _ => Ok(None),
    }
}

/// Whether the answer is the one of the word: `yes` and `no`, or a centre and `none`.
fn is_wanted(want: &str, answer: Answer) -> bool {
    match answer {
        Answer::Fits(true) => want == "yes",
        Answer::Fits(false) => want == "no",
        Answer::Centre(Some(n)) => want.parse::<i16>() == Ok(n),
        Answer::Centre(None) => want == "none",
    }
}

/// Takes the words of one line: `add RISK FIBRES LO HI`, `fits NAME WANT RISK FIBRES LO HI`, or
/// `lowest NAME WANT RISK FIBRES WIDTH`, with commas between the numbers of a risk and of fibres.
pub(crate) fn outcome_of(
    alloc: Global,
    backups: &mut Backups,
    words: &[&str],
) -> Result<Outcome, AllocError> {
    let (answer, want) = match words {
        ["add", rest @ ..] => return added(alloc, backups, rest),
        ["fits", _name, want, rest @ ..] => (fits(alloc, backups, rest)?, want),
        ["lowest", _name, want, rest @ ..] => (lowest(alloc, backups, rest)?, want),
        _ => return Ok(Outcome::Refused),
    };
    match answer {
        Some(answer) if is_wanted(want, answer) => Ok(Outcome::AsWanted),
        Some(answer) => Ok(Outcome::Other { answer }),
        None => Ok(Outcome::Refused),
    }
}
