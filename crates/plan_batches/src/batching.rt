//! What the batches come to.

ghost use Rattle.std.specs.Prelude.{◌≡◌, ◌^◌, ◌<◌, length, map, set, IfOk, OnOk};
ghost use Rattle.std.specs.List.Sorted.{IsNonDecreasingBy};
ghost use Rattle.eon_model.specs.Lists.{sort_by};
ghost use Rattle.eon_model.specs.Plan.{greatest};
ghost use Rattle.std.specs.Ordering.{nat_cmp};
ghost use Rattle.compact_plan.specs.Told.{moves_told, plan_told};
ghost use Rattle.plan_batches.specs.Batches.{AreFew, AreLive, AreMovers, AreGiven, MakesPlan, GivesTurn, IsMoverOf, batch_after, move_given};

use crate::mover::{Mover, mover_of};
use crate::rows::{awaited_on, enter, no_turns};
use crate::turn::Turn;
use compact_plan::{Move, Moves, Plan, Targets};
use leg_state::{Service, Services};
use std::alloc::{AllocError, Global};

// The channels that move, in the order of their moves.
fn movers_in_list(
    alloc: Global,
    services: &Services,
    moves: &[Move],
) -> Result<Vec<Mover>, AllocError>
    requires { AreLive services.now.list moves.now }
    ensures { IfOk result (λ r. AreMovers services.now.list moves.now r.items) }
{
    let mut movers = Vec::new(alloc);
    for i in 0..moves.len() {
        let target = &moves[i];
        let Some(service) = services.find(&target.name) else {
            unreachable!();
        };
        movers.push(mover_of(i, service, target))?;
    }
    Ok(movers)
}

// The channels that move, from the lowest up.
fn movers_upwards(
    alloc: Global,
    services: &Services,
    moves: &[Move],
) -> Result<Vec<Mover>, AllocError>
    requires { AreLive services.now.list moves.now }
    ensures movers { IfOk result (λ r. AreMovers services.now.list moves.now r.items) }
    ensures order { IfOk result (λ r. IsNonDecreasingBy (λ m. m.low) r.items) }
{
    let mut movers = movers_in_list(alloc, services, moves)?;
    movers.sort_by_key(|mover| mover.low)?;
    Ok(movers)
}

// The batch after that of the move that is waited for.
fn batch_after(first: &Option<Turn>) -> usize
    requires { batch_after first.now < 2 ^ 64 }
    ensures { result ≡ batch_after first.now }
{
    match first {
        Some(turn) => turn.batch + 1,
        None => 1,
    }
}

// The move with its batch, and with the name of the one that it waits for.
fn move_given(target: &Move, first: &Option<Turn>) -> Move
    requires { batch_after first.now < 2 ^ 64 }
    ensures { result ≡ move_given target.now first.now }
{
    Move {
        batch: batch_after(first),
        name: target.name,
        from: target.from,
        to: target.to,
        rest: target.rest,
        after: first.as_ref().map(|turn| turn.name),
    }
}

// The mover with the batch of its move.
fn turn_given(mover: &Mover, target: &Move) -> Turn
    ensures { result ≡ record { place = mover.now.place; name = target.now.name; batch = target.now.batch; end = mover.now.end } }
{
    Turn {
        place: mover.place,
        name: target.name,
        batch: target.batch,
        end: mover.end,
    }
}

// Puts the move at this place of the list.
fn put_move(moves: &mut Vec<Move>, place: usize, target: Move)
    requires { place < length moves.old.items }
    ensures { moves.new.items ≡ set moves.old.items place target }
{
    moves[place] = target;
}

// The fibres of the channel of the service.
fn fibres_of(service: &Service) -> &[u8]
    ensures { result.now ≡ service.now.leg.work.route.fibres }
{
    service.leg.work.route.fibres()
}

// Gives the mover its batch: the one after the latest of the moves that it waits for, which have theirs.
fn give_turn(
    rows: &mut Vec<Vec<Turn>>,
    moves: &mut Vec<Move>,
    services: &Services,
    mover: &Mover,
) -> Result<(), AllocError>
    requires mover { IsMoverOf services.now.list moves.old.items mover.now }
    requires long { length rows.old.items ≡ 256 }
    requires few { AreFew rows.old.items }
    ensures long { length rows.new.items ≡ 256 }
    ensures turn { OnOk result (GivesTurn services.now.list rows.old.items rows.new.items moves.old.items moves.new.items mover.now) }
{
    let target = &moves[mover.place];
    let Some(service) = services.find(&target.name) else {
        unreachable!();
    };
    let fibres = fibres_of(service);
    let given = move_given(target, &awaited_on(mover, rows, fibres));
    let turn = turn_given(mover, &given);
    put_move(moves, mover.place, given);
    enter(rows, fibres, &turn)
}

// Gives each mover its batch, from the lowest up.
fn give_turns(
    alloc: Global,
    moves: &mut Vec<Move>,
    services: &Services,
    movers: &[Mover],
) -> Result<(), AllocError>
    requires movers { AreMovers services.now.list moves.old.items movers.now }
    requires order { IsNonDecreasingBy (λ m. m.low) movers.now }
    ensures { OnOk result (AreGiven services.now.list moves.old.items moves.new.items) }
{
    let mut rows = no_turns(alloc)?;
    for mover in movers {
        give_turn(&mut rows, moves, services, mover)?;
    }
    Ok(())
}

// The latest batch; 0 for no move.
fn latest_batch(moves: &[Move]) -> usize
    ensures { result ≡ greatest (map (λ m. m.batch) moves.now) }
{
    let mut latest = 0;
    for target in moves {
        latest = latest.max(target.batch);
    }
    latest
}

// The moves by batch, and within one in the order in which they stood.
fn in_batches(moves: Vec<Move>) -> Result<Moves, AllocError>
    ensures { IfOk result (λ r. r.list.items ≡ sort_by (λ m k. nat_cmp m.batch k.batch) moves.items) }
{
    let mut list = moves;
    list.sort_by_key(|target| target.batch)?;
    Ok(Moves { list })
}

/// The plan that carries the targets of `compact` out: each move in its least batch, 1 or one more than the latest batch of the
/// moves that it waits for, which are those of the channels below it on a common fibre into whose old place it drifts. The
/// moves stand by batch, and then in list order. `after` names the first of those in list order whose batch is one less.
/// Want of memory is the only failure.
pub fn batches(alloc: Global, services: &Services, targets: Targets) -> Result<Plan, AllocError>
    requires { AreLive services.now.list targets.moves.list.items }
    ensures { IfOk result (λ p. MakesPlan services.now.list (moves_told targets.moves) (plan_told p)) }
{
    let mut moves = targets.moves.list;
    let movers = movers_upwards(alloc, services, &moves)?;
    give_turns(alloc, &mut moves, services, &movers)?;
    let batches = latest_batch(&moves);
    Ok(Plan {
        batches,
        moves: in_batches(moves)?,
    })
}
