//! What is told of a plan.

ghost use Rattle.std.specs.Prelude.{◌≡◌, ◌<◌, length, Some, slice_get};

use eon_base::name::Name;

/// What a channel rests on at its lowest place.
#[derive(Clone, Copy, Debug)]
pub enum Rest {
    /// The lowest unit of its part of the band.
    Floor,
    /// The channel of this service, at its own lowest place, which ends right below it on a common fibre.
    On(Name),
    /// The backup of this service, which ends right below it on a common fibre.
    Over(Name),
}

/// A channel that moves to its lowest place, from and to a centre in units of 6.25 GHz from 193.1 THz.
#[derive(Clone, Copy, Debug)]
pub struct Move {
    /// The batch in which it drifts, from 1.
    pub batch: usize,
    /// The name of its service.
    pub name: Name,
    /// Where it stands.
    pub from: i16,
    /// Its lowest place.
    pub to: i16,
    /// What it rests on there.
    pub rest: Rest,
    /// The move of the batch before that it waits for.
    pub after: Option<Name>,
}

/// Moves, in some order.
#[derive(Drop)]
pub struct Moves {
    pub list: Vec<Move>,
}

impl Moves {
    /// How many there are.
    pub fn len(&self) -> usize
        ensures { result ≡ length self.now.list.items }
    {
        self.list.len()
    }

    /// The move at this place, which is below `len`.
    pub fn at(&self, i: usize) -> &Move
        requires { i < length self.now.list.items }
        ensures { slice_get self.now.list.items i ≡ Some result.now }
    {
        &self.list[i]
    }
}

/// The channels whose lowest place is not their own, in list order, all in batch 1 and after none: the batches are not made.
#[derive(Drop)]
pub struct Targets {
    pub moves: Moves,
}

/// Moves by batch, and within one in list order.
#[derive(Drop)]
pub struct Plan {
    /// How many batches there are.
    pub batches: usize,
    pub moves: Moves,
}

/// What becomes of the wish to bring all channels to their lowest places.
#[derive(Drop)]
pub enum Compact {
    /// This service moves, the first that does.
    Busy { name: Name },
    /// The channels whose lowest place is not their own, in list order.
    Lowest(Targets),
}
