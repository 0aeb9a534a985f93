//! What is proved of clear legs and of legal states.

ghost use Rattle.eon_model.specs.Laws.{ClearIsSymmetric, LegalSurvivesRemoval};

/// Two legs are clear of each other, or neither is.
pub fn clear_is_symmetric()
    ensures { ClearIsSymmetric }
{
    eon_model::laws::clear_is_symmetric();
}

/// A legal state without one of its services is legal.
pub fn legal_survives_removal()
    ensures { LegalSurvivesRemoval }
{
    eon_model::laws::legal_survives_removal();
}
