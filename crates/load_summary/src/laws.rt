//! What is proved of the summary of a load.
ghost use Rattle.load_summary.specs.Laws.{OneSummary};

/// A summary that tells of no want of memory is a function of the network, the seed and the count.
pub fn loads_without_memory_have_one_summary()
    ensures { OneSummary }
{}
