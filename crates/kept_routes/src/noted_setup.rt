//! A network that is noted for contracts alone.
ghost use Rattle.std.specs.Prelude.{◌≡◌};
ghost use Rattle.std.specs.Borrow.{ftrue};
ghost use Rattle.eon_model.specs.Legal.{Setup};
ghost use Rattle.eon_model.specs.SetupCodes.{setup_code};
ghost use Rattle.kept_routes.specs.Noted.{no_setup};

use net_setup::NetSetup;
use std::marker::Model;

/// A network with what is planned on it. It takes no memory: only clauses see it.
#[derive(Drop)]
pub struct NotedSetup {
    pub ghost setup: { Setup } by { setup_code },
}

impl Model for NotedSetup {
    ghost also_owns = { λ _. ftrue };
}

impl NotedSetup {
    /// This network.
    pub fn of(setup: &NetSetup) -> NotedSetup
        ensures { result.setup ≡ setup.now }
    {
        let mut noted = NotedSetup::new();
        noted.note(setup);
        noted
    }

    // The network of no node.
    fn new() -> NotedSetup
        ensures { result.setup ≡ no_setup }
    {
        NotedSetup {}
    }

    // This network from now on.
    fn note(&mut self, _setup: &NetSetup)
        ensures { self.new.setup ≡ _setup.now }
    {}
}
