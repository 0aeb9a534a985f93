//! The lines of a summary.
ghost use Rattle.std.specs.Prelude.{◌≡◌, ◌++◌, [], List, OnOk, IfOk};
ghost use Rattle.eon_model.specs.Answers.{Answer};
ghost use Rattle.eon_model.specs.DriveSummary.{count_line, summary_text};
ghost use Rattle.eon_model.specs.Legal.{Setup};
ghost use Rattle.eon_model.specs.Listings.{totals};
ghost use Rattle.eon_model.specs.Run.{state_at_end};
ghost use Rattle.load_summary.specs.Kinds.{IsTally};
ghost use Rattle.load_summary.specs.Lines.{counted_lines, held_lines};

use crate::tally::Tally;
use eon_base::number::digits;
use plan_report::Stats;
use std::alloc::{AllocError, Global};

// A line of a word and its number.
fn put_count(text: &mut Vec<u8>, word: &[u8], number: u32) -> Result<(), AllocError>
    ensures { OnOk result (text.new.items ≡ text.old.items ++ count_line word.now number) }
{
    text.extend_from_slice(word)?;
    text.push(b' ')?;
    text.extend_from_slice(digits(u64::from(number)).bytes())?;
    text.push(b'\n')?;
    Ok(())
}

// The lines of replies.
fn put_replies(text: &mut Vec<u8>, tally: &Tally) -> Result<(), AllocError>
    ensures { OnOk result (text.new.items ≡ text.old.items ++ counted_lines tally.now) }
{
    put_count(text, b"ok", tally.ok)?;
    put_count(text, b"blocked", tally.blocked)?;
    put_count(text, b"noroute", tally.noroute)?;
    put_count(text, b"memory", tally.memory)?;
    put_count(text, b"other", tally.other)
}

// The lines of the state at the end.
fn put_totals(text: &mut Vec<u8>, stats: &Stats) -> Result<(), AllocError>
    ensures { OnOk result (text.new.items ≡ text.old.items ++ held_lines stats.now) }
{
    put_count(text, b"live", stats.services)?;
    put_count(text, b"lit", stats.lit)?;
    put_count(text, b"held", stats.held)
}

/// The summary of a run: a line for each kind of reply, and for the live services, the pairs of a fibre and a unit of
/// 6.25 GHz that are lit, and those that shared backups hold, at the end.
pub fn summary(alloc: Global, tally: &Tally, stats: &Stats) -> Result<Vec<u8>, AllocError>
    ensures { IfOk result (λ text. (setup : Setup) (answers : List Answer) → IsTally tally.now answers → stats.now ≡ totals setup (state_at_end setup [] answers) → text.items ≡ summary_text setup answers) }
{
    let mut text = Vec::new(alloc);
    put_replies(&mut text, tally)?;
    put_totals(&mut text, stats)?;
    Ok(text)
}
