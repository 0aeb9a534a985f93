//! The gate behind which the next record stands.
ghost use Rattle.std.specs.Prelude.{◌≡◌, ◌+◌, ◌≤◌};
ghost use Rattle.eon_model.specs.Journal.{left_at};

/// Where the journal goes on: the offset of a gate, the number of the record behind it, and the most bytes that the
/// journal may have in all.
#[derive(Clone, Copy)]
pub struct Place {
    pub limit: u32,
    pub at: u32,
    pub number: u32,
    ghost within: { at + 1 ≤ limit },
    ghost numbered: { number ≤ at },
}

impl Place {
    /// Behind the head.
    pub(crate) fn first(limit: u32) -> Place
        requires { 4096 ≤ limit }
        ensures limit { result.limit ≡ limit }
        ensures at { result.at ≡ 40 }
        ensures number { result.number ≡ 1 }
    {
        Place {
            limit,
            at: 40,
            number: 1,
        }
    }

    /// How many bytes are left behind the gate.
    pub fn left(self) -> u32
        ensures { result ≡ left_at self.limit self.at }
    {
        self.limit - (self.at + 1)
    }

    /// Behind a record that takes so many bytes.
    pub(crate) fn after(self, taken: u32) -> Place
        requires some { 1 ≤ taken }
        requires room { taken ≤ left_at self.limit self.at }
        ensures limit { result.limit ≡ self.limit }
        ensures at { result.at ≡ self.at + taken }
        ensures number { result.number ≡ self.number + 1 }
    {
        Place {
            limit: self.limit,
            at: self.at + taken,
            number: self.number + 1,
        }
    }
}
