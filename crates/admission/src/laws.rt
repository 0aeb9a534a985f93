//! What is proved of first fit.

ghost use Rattle.admission.specs.Laws.{FirstForNewService, FirstForSecondLeg};

/// What `first` finds beside no leg is the planner's first placement of a new service.
pub fn first_is_of_a_new_service()
    ensures { FirstForNewService }
{}

/// What `first` finds beside the leg of a service at rest is the planner's first placement of its second leg.
pub fn first_is_of_a_second_leg()
    ensures { FirstForSecondLeg }
{}
