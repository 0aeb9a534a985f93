//! The moves that have their batch, fibre by fibre.

ghost use Rattle.std.specs.Prelude.{◌≡◌, length, None, IfOk, OnOk};
ghost use Rattle.std.specs.List.{fold};
ghost use Rattle.plan_batches.specs.Awaited as awaited;
ghost use Rattle.plan_batches.specs.Rows.{turns_on, AreEmpty, Gains, GainsOn};

use crate::mover::Mover;
use crate::turn::{Turn, awaited_of};
use std::alloc::{AllocError, Global};

// How many fibres a number of one byte tells apart.
const FIBRES: usize = 256;

// No move on any fibre.
pub(crate) fn no_turns(alloc: Global) -> Result<Vec<Vec<Turn>>, AllocError>
    ensures long { IfOk result (λ r. length r.items ≡ 256) }
    ensures empty { IfOk result (λ r. AreEmpty r.items) }
{
    let mut rows = Vec::new(alloc);
    for _i in 0..FIBRES {
        rows.push(Vec::new(alloc))?;
    }
    Ok(rows)
}

// Puts the move at the end of those on one fibre.
fn enter_row(rows: &mut Vec<Vec<Turn>>, fibre: u8, turn: &Turn) -> Result<(), AllocError>
    requires { length rows.old.items ≡ 256 }
    ensures long { length rows.new.items ≡ 256 }
    ensures gains { OnOk result (Gains rows.old.items rows.new.items fibre turn.now) }
{
    rows[usize::from(fibre)].push(*turn)?;
    Ok(())
}

// Puts the move at the end of those on each of these fibres.
pub(crate) fn enter(rows: &mut Vec<Vec<Turn>>, fibres: &[u8], turn: &Turn) -> Result<(), AllocError>
    requires { length rows.old.items ≡ 256 }
    ensures long { length rows.new.items ≡ 256 }
    ensures gains { OnOk result (GainsOn rows.old.items rows.new.items fibres.now turn.now) }
{
    for fibre in fibres {
        enter_row(rows, *fibre, turn)?;
    }
    Ok(())
}

// What the mover waits for, of the moves on these fibres.
pub(crate) fn awaited_on(mover: &Mover, rows: &[Vec<Turn>], fibres: &[u8]) -> Option<Turn>
    requires { length rows.now ≡ 256 }
    ensures { result ≡ fold (awaited.awaited mover.now) None (turns_on rows.now fibres.now) }
{
    let mut found = None;
    for fibre in fibres {
        found = awaited_of(mover, found, &rows[usize::from(*fibre)]);
    }
    found
}
