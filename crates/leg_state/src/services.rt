//! The list of live services.

ghost use Rattle.std.specs.Prelude.{◌≡◌, ℕ, ◌<◌, ◌≤◌, [], ◌∷◌, ◌++◌, length, Some, None, IsTrue, IsSome, OnOk, slice_get, slice_index_or};
ghost use Rattle.std.specs.Option.{option_copied};
ghost use Rattle.eon_model.specs.Names.{differ};
ghost use Rattle.eon_model.specs.Services.{service_of};
ghost use Rattle.eon_model.specs.Changes.{change_service, without_service, drifting_to, with_leg, with_next, finished, undone, backup_at};
ghost use Rattle.leg_state.specs.Listed.{service_names};
ghost use Rattle.leg_state.specs.Asks.{has_service, may_drift, may_finish, may_go_back, may_make, may_refit};

use crate::leg::Leg;
use crate::service::Service;
use eon_base::name::Name;
use indexmap::IndexMap;
use std::alloc::{AllocError, Global};
use std::marker::Model;

/// The live services in order of admission, each under its own name. A contract sees the list, and how
/// many more can enter without memory.
#[derive(Drop)]
pub struct Services {
    map: IndexMap<Name, Service>,
}

impl Model for Services {
    ghost use Rattle.leg_state.specs.Listed.{ServicesSeen, seen_code, IsNamed};
    ghost use Rattle.indexmap.specs.IndexMap.{values, spare};

    ghost Value = { ServicesSeen };

    ghost coded = { seen_code };

    ghost view = { λ s. record { list = values s.map; spare = spare s.map } };

    ghost invariant = { λ s. IsNamed s.map.entries };
}

// Lets a service go.
fn let_go(_service: Option<Service>) {}

impl Services {
    /// No service. Nothing is allocated yet.
    pub fn new(alloc: Global) -> Services
        ensures { result.list ≡ [] }
    {
        Services {
            map: IndexMap::new(alloc),
        }
    }

    /// How many services there are. No two have one name.
    pub fn len(&self) -> usize
        ensures count { result ≡ length self.now.list }
        ensures names { IsTrue (differ (service_names self.now.list)) }
    {
        self.map.len()
    }

    /// The service at this place, which is below `len`.
    pub fn at(&self, i: usize) -> &Service
        requires { i < length self.now.list }
        ensures service { slice_get self.now.list i ≡ Some result.now }
        ensures read { result.now ≡ slice_index_or self.now.list i result.now }
    {
        match self.map.get_index(i) {
            Some((_, service)) => service,
            None => unreachable!(),
        }
    }

    /// The service of this name. None exactly where no service has it.
    pub fn find(&self, name: &Name) -> Option<&Service>
        ensures { option_copied result ≡ service_of self.now.list name.now }
    {
        self.map.get(name)
    }

    /// Makes room for one more service. Want of memory leaves the list as it was.
    pub fn reserve(&mut self) -> Result<(), AllocError>
        ensures list { self.new.list ≡ self.old.list }
        ensures room { OnOk result (1 ≤ self.new.spare) }
        ensures kept { self.old.spare ≤ self.new.spare }
    {
        self.map.reserve(1)
    }

    /// Puts a service with a new name at the end of the list, which has room for it.
    pub fn enter(&mut self, service: Service)
        requires fresh { service_of self.old.list service.name ≡ None }
        requires room { 1 ≤ self.old.spare }
        ensures { self.new.list ≡ self.old.list ++ service ∷ [] }
    {
        let name = service.name;
        match self.map.insert(name, service) {
            Ok(old) => let_go(old),
            Err(_) => unreachable!(),
        }
    }

    /// Takes the service of this name, which is there, out of the list. The others keep their order.
    pub fn leave(&mut self, name: &Name) -> Service
        requires { IsSome (service_of self.old.list name.now) }
        ensures service { service_of self.old.list name.now ≡ Some result }
        ensures list { self.new.list ≡ without_service name.now self.old.list }
        ensures kept { self.old.spare ≤ self.new.spare }
    {
        let _ = self.map.len();
        match self.map.shift_remove(name) {
            Some(service) => service,
            None => unreachable!(),
        }
    }

    /// The service of this name, which is at rest and whose channel can stand at the centre `to`, in units
    /// of 6.25 GHz, drifts there.
    pub fn set_to(&mut self, name: &Name, to: i16)
        requires { IsTrue (has_service (may_drift to) self.old.list name.now) }
        ensures list { self.new.list ≡ change_service name.now (with_leg (drifting_to to)) self.old.list }
        ensures room { self.new.spare ≡ self.old.spare }
    {
        match self.map.get_mut(name) {
            Some(service) => service.set_to(to),
            None => unreachable!(),
        }
    }

    /// Ends the move of the service of this name, which drifts or is making, not both: it stands at the
    /// centre that it drifts to, where it can stand, or the new leg alone is left.
    pub fn end_move(&mut self, name: &Name)
        requires { IsTrue (has_service may_finish self.old.list name.now) }
        ensures list { self.new.list ≡ change_service name.now finished self.old.list }
        ensures room { self.new.spare ≡ self.old.spare }
    {
        match self.map.get_mut(name) {
            Some(service) => service.end_move(),
            None => unreachable!(),
        }
    }

    /// Gives up the move of the service of this name, which drifts or is making, not both: the target, or
    /// the new leg, goes, and it is carried as before the move.
    pub fn undo_move(&mut self, name: &Name)
        requires { IsTrue (has_service may_go_back self.old.list name.now) }
        ensures list { self.new.list ≡ change_service name.now undone self.old.list }
        ensures room { self.new.spare ≡ self.old.spare }
    {
        match self.map.get_mut(name) {
            Some(service) => service.undo_move(),
            None => unreachable!(),
        }
    }

    /// Puts a new leg beside the old one of the service of this name, which is at rest.
    pub fn add_leg(&mut self, name: &Name, leg: Leg)
        requires { IsTrue (has_service may_make self.old.list name.now) }
        ensures list { self.new.list ≡ change_service name.now (with_next leg) self.old.list }
        ensures room { self.new.spare ≡ self.old.spare }
    {
        match self.map.get_mut(name) {
            Some(service) => service.add_leg(leg),
            None => unreachable!(),
        }
    }

    /// Puts the backup of the service of this name, which is at rest and has one that can stand at the
    /// centre `n`, in units of 6.25 GHz, there.
    pub fn set_back(&mut self, name: &Name, n: i16)
        requires { IsTrue (has_service (may_refit n) self.old.list name.now) }
        ensures list { self.new.list ≡ change_service name.now (with_leg (backup_at n)) self.old.list }
        ensures room { self.new.spare ≡ self.old.spare }
    {
        match self.map.get_mut(name) {
            Some(service) => service.set_back(n),
            None => unreachable!(),
        }
    }
}
