//! How many cases were tried, and which of them came out otherwise than they have to.

use crate::call::Ended;
use std::alloc::{AllocError, Global};

/// A case that came out otherwise: the place and the value that it is told by, and how it ended.
#[derive(Drop)]
pub(crate) struct Wrong {
    pub(crate) at: u64,
    pub(crate) with: u64,
    pub(crate) code: u8,
    pub(crate) written: Vec<u8>,
}

/// What came of the cases so far.
#[derive(Drop)]
pub(crate) struct Tally {
    pub(crate) cases: u64,
    pub(crate) wrong: Vec<Wrong>,
}

impl Tally {
    /// No case yet.
    pub(crate) fn new(alloc: Global) -> Tally {
        Tally {
            cases: 0,
            wrong: Vec::new(alloc),
        }
    }

    /// Counts a case, and keeps how it ended where that is wrong.
    pub(crate) fn note(
        &mut self,
        at: u64,
        with: u64,
        is_right: bool,
        ended: Ended,
    ) -> Result<(), AllocError> {
        self.cases = self.cases.saturating_add(1);
        if is_right {
            return Ok(());
        }
        self.wrong.push(Wrong {
            at,
            with,
            code: ended.code,
            written: ended.written,
        })?;
        Ok(())
    }
}
