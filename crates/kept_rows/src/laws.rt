//! What is proved of rows that stand for a list of services.

ghost use Rattle.kept_rows.specs.StandingLaws.{StandingTellsRows, EventsMayTurn, StandingFollowsEvents};
ghost use Rattle.kept_rows.specs.StandingLaws.{EnteringBringsALeg, LeavingTakesALeg, PushesTakeTheHull, DriftsEndInASlot};
ghost use Rattle.kept_rows.specs.StandingLaws.{MakingsEndWithOneLeg, MakingBringsALeg, RefitsMoveTheBackup, LeavingWhileMaking};

/// Their rows and counts are those of the list.
pub fn standing_tells_rows()
    ensures { StandingTellsRows }
{}

/// What an event turns over can be changed where the event can follow the list.
pub fn events_may_turn()
    ensures { EventsMayTurn }
{}

/// And once it was, they stand for the list after the event.
pub fn standing_follows_events()
    ensures { StandingFollowsEvents }
{}

/// A new service brings its leg.
pub fn entering_brings_a_leg()
    ensures { EnteringBringsALeg }
{}

/// A service of one leg that goes takes that leg with it.
pub fn leaving_takes_a_leg()
    ensures { LeavingTakesALeg }
{}

/// A push takes all units that the channel drifts over.
pub fn pushes_take_the_hull()
    ensures { PushesTakeTheHull }
{}

/// A drift ends in one slot, at its target or where it began.
pub fn drifts_end_in_a_slot()
    ensures { DriftsEndInASlot }
{}

/// A making ends with one leg.
pub fn makings_end_with_one_leg()
    ensures { MakingsEndWithOneLeg }
{}

/// A second leg comes.
pub fn making_brings_a_leg()
    ensures { MakingBringsALeg }
{}

/// A refit moves the backup.
pub fn refits_move_the_backup()
    ensures { RefitsMoveTheBackup }
{}

/// A service that is making leaves as if its making was given up first.
pub fn leaving_gives_a_making_up()
    ensures { LeavingWhileMaking }
{}
