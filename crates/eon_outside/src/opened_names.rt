//! Names that were opened, kept for contracts alone.
ghost use Rattle.std.specs.Prelude.{◌≡◌, ℕ, List, [], ◌∷◌, ◌++◌};
ghost use Rattle.std.specs.Borrow.{ftrue};

use std::marker::Model;

/// The names that a shelf was asked to open, first to last. It takes no memory: only clauses see the names.
#[derive(Drop)]
pub struct OpenedNames {
    pub ghost names: { List (List ℕ) },
}

impl Model for OpenedNames {
    ghost also_owns = { λ _. ftrue };
}

impl OpenedNames {
    /// No name yet.
    pub fn new() -> OpenedNames
        ensures { result.names ≡ [] }
    {
        OpenedNames {}
    }

    /// Adds a name at the end.
    pub fn note(&mut self, _name: &[u8])
        ensures { self.new.names ≡ self.old.names ++ _name.now ∷ [] }
    {}
}
