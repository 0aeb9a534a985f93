//! Each number has one spelling.
ghost use Rattle.eon_base.specs.Laws.{OneSpelling, OneSignedSpelling};

/// The bytes that are read as a number from 0 to 2^64 - 1 are those that `digits` gives of it.
pub fn number_has_one_spelling()
    ensures { OneSpelling }
{}

/// The bytes that are read as a number from -(2^63 - 1) to 2^63 - 1 are those that `signed` gives of it.
pub fn integer_has_one_spelling()
    ensures { OneSignedSpelling }
{}
