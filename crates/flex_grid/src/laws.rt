//! Overlap and hulls.
ghost use Rattle.flex_grid.specs.Laws.{OverlapIsSymmetric, HullHoldsBoth, HullIsLeast};

/// Whether two ranges overlap does not depend on their order.
pub fn overlap_is_symmetric()
    ensures { OverlapIsSymmetric }
{}

/// All units of two ranges lie in their hull.
pub fn hull_holds_both()
    ensures { HullHoldsBoth }
{}

/// The hull of two ranges lies in each range that holds both.
pub fn hull_is_least()
    ensures { HullIsLeast }
{}
