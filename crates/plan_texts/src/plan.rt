//! The text of a plan.
ghost use Rattle.std.specs.Prelude.{◌≡◌, ◌≤◌, drop, option_map, IfOk, IfErr, IfSome};
ghost use Rattle.eon_model.specs.PlanTexts as texts;
ghost use Rattle.eon_model.specs.PlanReadings.{PlanOf, plan_reading, head_told, is_next_batch};
ghost use Rattle.net_file.specs.Readings.{first_read};
ghost use Rattle.plan_texts.specs.Fields.{kept};
ghost use Rattle.plan_texts.specs.Told.{plan_told, move_told, IsRefusalOf};
ghost use Rattle.plan_texts.specs.Plans.{head_at, has_few_batches, model_head};

use crate::field::{number_field, word_field};
use crate::moves::{MOST_MOVES, Move, keep, read_move};
use net_file::{Fields, Lines};
use std::alloc::{AllocError, Global};

/// A plan as its text tells it.
#[derive(Drop)]
pub struct Plan {
    /// How many batches there are.
    pub batches: u16,
    /// The moves, in the order of their lines.
    pub moves: Vec<Move>,
}

/// Why a text was not read as a plan.
#[derive(Clone, Copy, Debug, PartialEq, Eq)]
pub enum PlanRefusal {
    /// There was no memory for the moves.
    Memory,
    /// The first line, counted from 1, with which the lines so far begin no text of a plan.
    Form { line: u32 },
}

impl From<AllocError> for PlanRefusal {
    ghost use Rattle.plan_texts.specs.declared.plan.PlanRefusal.TheVariants.{Memory};

    ghost from_gives = { λ _ e. e ≡ Memory };

    fn from(_error: AllocError) -> PlanRefusal {
        PlanRefusal::Memory
    }
}

// The numbers of a plan's first line.
#[derive(Clone, Copy, Debug)]
pub(crate) struct Head {
    pub(crate) batches: u16,
    pub(crate) moves: u16,
}

// Whether there is neither a batch nor a move, or at most a batch for each move.
fn has_few_batches(batches: u16, moves: u16) -> bool
    ensures { result ≡ has_few_batches batches moves }
{
    if batches == 0 {
        moves == 0
    } else {
        batches <= moves
    }
}

// The numbers that the fields are.
#[tactic(auto, unfolding(crate::specs::Plans::head_at))]
fn head_fields(fields: &mut Fields<'_>) -> Option<Head>
    ensures { result ≡ head_at fields.old }
{
    if !word_field(fields, b"plan") {
        return None;
    }
    let batches = number_field(fields, 0, MOST_MOVES)?;
    let moves = number_field(fields, 0, MOST_MOVES)?;
    if !fields.is_done() {
        return None;
    }
    if !has_few_batches(batches, moves) {
        return None;
    }
    Some(Head { batches, moves })
}

// The numbers of the first line.
fn read_head(line: &[u8]) -> Option<Head>
    ensures value { option_map model_head result ≡ head_told line.now }
    ensures few { IfSome result (λ h. h.moves ≤ 4096) }
{
    let mut fields = Fields::new(line);
    head_fields(&mut fields)
}

// Whether the move is in the last batch or the next one, and the greatest can be reached with so many moves more.
fn is_next_batch(batches: u16, last: u16, left: u16, next: &Move) -> bool
    requires { left ≤ 4096 }
    ensures { result ≡ is_next_batch batches last left (move_told next.now) }
{
    let batch = u32::from(next.batch);
    let follows = next.batch == last || batch == u32::from(last) + 1;
    follows && next.batch <= batches && u32::from(batches) <= batch + u32::from(left)
}

// The move of this line, where it can be the next one.
fn next_move(line: &[u8], batches: u16, last: u16, left: u16) -> Option<Move>
    requires { left ≤ 4096 }
    ensures { option_map move_told result ≡ kept (is_next_batch batches last left) (texts.move_told line.now) }
{
    let next = read_move(line)?;
    if is_next_batch(batches, last, left, &next) {
        Some(next)
    } else {
        None
    }
}

// The numbers of the next line.
fn first_line(lines: &mut Lines<'_>) -> Option<Head>
    ensures value { option_map model_head result ≡ first_read head_told lines.old.0 }
    ensures few { IfSome result (λ h. h.moves ≤ 4096) }
    ensures after { lines.new ≡ (drop 1 lines.old.0, lines.old.1) }
{
    let line = lines.next_line()?;
    read_head(line)
}

// The move of the next line, where it can be the next one.
fn line_move(lines: &mut Lines<'_>, batches: u16, last: u16, left: u16) -> Option<Move>
    requires { left ≤ 4096 }
    ensures value { option_map move_told result ≡ first_read (λ line. kept (is_next_batch batches last left) (texts.move_told line)) lines.old.0 }
    ensures after { lines.new ≡ (drop 1 lines.old.0, lines.old.1) }
{
    let line = lines.next_line()?;
    next_move(line, batches, last, left)
}

/// The plan that the bytes tell. Where they are no text of a plan, the first line that is wrong is told; where they end too
/// early, or in a line without byte 10, that is the next line or this one. Want of memory is the one other refusal.
pub fn read_plan(alloc: Global, bytes: &[u8]) -> Result<Plan, PlanRefusal>
    ensures ok { IfOk result (λ p. plan_reading bytes.now ≡ PlanOf (plan_told p)) }
    ensures refused { IfErr result (λ e. IsRefusalOf bytes.now e) }
{
    let mut lines = Lines::new(bytes);
    let Some(head) = first_line(&mut lines) else {
        return Err(PlanRefusal::Form { line: 1 });
    };
    let mut moves = Vec::new(alloc);
    let mut last = 0;
    for i in 0..head.moves {
        match line_move(&mut lines, head.batches, last, head.moves - 1 - i) {
            Some(next) => {
                last = next.batch;
                keep(&mut moves, &next)?;
            }
            None => {
                return Err(PlanRefusal::Form { line: i as u32 + 2 });
            }
        }
    }
    if !lines.is_done() {
        return Err(PlanRefusal::Form {
            line: head.moves as u32 + 2,
        });
    }
    Ok(Plan {
        batches: head.batches,
        moves,
    })
}
