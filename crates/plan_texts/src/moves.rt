//! The line of a move.
ghost use Rattle.std.specs.Prelude.{◌≡◌, [], ◌∷◌, ◌++◌, drop, option_map, IfSome, OnOk};
ghost use Rattle.eon_model.specs.PlanTexts as model;
ghost use Rattle.plan_texts.specs.Told.{move_told};
ghost use Rattle.plan_texts.specs.Moves.{rest_at, behind_rest, after_at, waits_rightly, move_at};

use crate::field::{centre_field, number_field, word_field};
use eon_base::name::Name;
use net_file::Fields;
use std::alloc::AllocError;

/// The greatest number of a batch.
pub(crate) const MOST_MOVES: u16 = 4096;

/// What a channel rests on at its target.
#[derive(Clone, Copy, Debug)]
pub enum Rest {
    /// The lowest unit of its part of the band.
    Floor,
    /// The channel of this service.
    On(Name),
    /// The backup of this service.
    Over(Name),
}

/// One move of a plan. Centres are in units of 6.25 GHz from 193.1 THz.
#[derive(Clone, Copy, Debug)]
pub struct Move {
    /// The batch in which it drifts, from 1.
    pub batch: u16,
    /// The name of its service.
    pub name: Name,
    /// Where it stands.
    pub from: i16,
    /// Where it drifts to.
    pub to: i16,
    /// What it rests on there.
    pub rest: Rest,
    /// The move of the batch before that it waits for; none exactly in batch 1.
    pub after: Option<Name>,
}

// What the channel rests on.
#[tactic(auto, unfolding(crate::specs::Moves::rest_at))]
fn rest_field(fields: &mut Fields<'_>) -> Option<Rest>
    ensures value { result ≡ rest_at fields.old }
    ensures after { IfSome result (λ rest. fields.new ≡ behind_rest rest fields.old) }
{
    let word = fields.next_field()?;
    if word == b"floor".as_slice() {
        return Some(Rest::Floor);
    }
    if word == b"on".as_slice() {
        let name = fields.name()?;
        return Some(Rest::On(name));
    }
    if word == b"over".as_slice() {
        let name = fields.name()?;
        return Some(Rest::Over(name));
    }
    None
}

// The move that is waited for, where the line goes on, and no more.
#[tactic(auto, unfolding(crate::specs::Moves::after_at))]
fn after_field(fields: &mut Fields<'_>) -> Option<Option<Name>>
    ensures { result ≡ after_at fields.old }
{
    if fields.is_done() {
        return Some(None);
    }
    if !word_field(fields, b"after") {
        return None;
    }
    let name = fields.name()?;
    if fields.is_done() {
        Some(Some(name))
    } else {
        None
    }
}

// Whether a move is waited for just where the batch is above 1.
fn waits_rightly(batch: u16, after: &Option<Name>) -> bool
    ensures { result ≡ waits_rightly batch after.now }
{
    if batch == 1 {
        after.is_none()
    } else {
        after.is_some()
    }
}

// The move that the fields are.
#[tactic(auto, unfolding(crate::specs::Moves::move_at))]
fn move_fields(fields: &mut Fields<'_>) -> Option<Move>
    ensures { result ≡ move_at fields.old }
{
    if !word_field(fields, b"move") {
        return None;
    }
    let batch = number_field(fields, 1, MOST_MOVES)?;
    let name = fields.name()?;
    let from = centre_field(fields)?;
    let to = centre_field(fields)?;
    let rest = rest_field(fields)?;
    let after = after_field(fields)?;
    if !waits_rightly(batch, &after) {
        return None;
    }
    Some(Move {
        batch,
        name,
        from,
        to,
        rest,
        after,
    })
}

/// The move of a line, given without its byte 10; None exactly where it is the line of none.
pub fn read_move(line: &[u8]) -> Option<Move>
    ensures { option_map move_told result ≡ model.move_told line.now }
{
    let mut fields = Fields::new(line);
    move_fields(&mut fields)
}

/// Puts the move at the end of these.
pub(crate) fn keep(moves: &mut Vec<Move>, next: &Move) -> Result<(), AllocError>
    ensures { OnOk result (moves.new.items ≡ moves.old.items ++ next.now ∷ []) }
{
    moves.push(Move {
        batch: next.batch,
        name: next.name,
        from: next.from,
        to: next.to,
        rest: next.rest,
        after: next.after,
    })?;
    Ok(())
}
