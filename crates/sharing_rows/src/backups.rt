//! The shared backups of a network, which rows add. Each call tests what is asked for, so that any row may be tried.
ghost use Rattle.std.specs.Prelude.{◌≡◌, ◌<◌, ◌+◌, ◌≤◌, ℕ, true, IsTrue, IfOk, IfSome, length, take, refl};
ghost use Rattle.std.specs.List.{AllByRecursion};
ghost use Rattle.eon_model.specs.Grid.{lies_in, span_of};
ghost use Rattle.eon_model.specs.Lists.{numbers_differ};
ghost use Rattle.backup_sharing.specs.Shared.{IsThere, reserved};
ghost use Rattle.sharing_rows.specs.Backups.{AreOf, IsBelow};

use backup_sharing::{Band, Net, RiskSet, Sharing, Units};
use spectrum_map::Maps;
use std::alloc::{AllocError, Global};

/// The most backups that are added.
const MOST_ADDED: u16 = 8000;

/// How many risk numbers there can be.
const MOST_GROUPS: u16 = 256;

/// A backup: the risk of the working route that it backs, its fibres, and the units that it holds there.
#[derive(Drop)]
pub(crate) struct Backup {
    pub(crate) risk: RiskSet,
    pub(crate) fibres: Vec<u8>,
    pub(crate) units: Units,
}

/// The shared backups of a network, beside maps on which nothing is lit.
#[derive(Drop)]
pub(crate) struct Backups {
    band: Band,
    fibres: u8,
    groups: u16,
    sharing: Sharing,
    maps: Maps,
    added: u16,
    ghost kept: { AreOf sharing maps band fibres groups added },
}

/// The risk of these groups, where each is one of the first so many.
pub(crate) fn risk_of(numbers: &[u16], groups: u16) -> Option<RiskSet>
    ensures { IfSome result (IsBelow groups) }
{
    let mut risk = RiskSet::empty();
    for number in numbers {
        if *number >= groups || *number >= MOST_GROUPS {
            return None;
        }
        risk = risk.with(*number);
    }
    Some(risk)
}

// Whether no fibre stands among them twice.
fn differ(fibres: &[u8]) -> bool
    ensures { result ≡ true → IsTrue (numbers_differ fibres.now) }
{
    for at in 0..fibres.len() {
        if fibres[..at].contains(&fibres[at]) {
            return false;
        }
    }
    true
}

impl Backups {
    /// No backup yet, on the fibres of this network.
    pub(crate) fn new(alloc: Global, net: &Net, band: Band) -> Result<Backups, AllocError> {
        let fibres = net.fibres();
        Ok(Backups {
            band,
            fibres,
            groups: u16::from(fibres) + u16::from(net.groups()),
            sharing: Sharing::new(alloc, net, band)?,
            maps: Maps::new(alloc, band, fibres)?,
            added: 0,
        })
    }

    /// How many groups there are, those of one fibre and the named ones.
    pub(crate) fn groups(&self) -> u16
        ensures { result ≡ self.now.groups }
    {
        self.groups
    }

    // Whether all of these fibres are there.
    fn has_all(&self, fibres: &[u8]) -> bool
        ensures { result ≡ true → AllByRecursion (λ fibre. fibre < self.now.fibres) fibres.now }
    {
        fibres.iter().all(|fibre| *fibre < self.fibres)
    }

    // Whether the units are those of the band's span.
    fn has_units(&self, units: &Units) -> bool
        ensures { result ≡ true → IsTrue (lies_in (span_of self.now.band) units.now) }
    {
        self.band.lo() <= units.lo() && units.hi() <= self.band.hi()
    }

    // Whether the fibres and the units are there, and no fibre twice.
    fn has(&self, backup: &Backup) -> bool
        requires { IsBelow self.now.groups backup.now.risk }
        ensures { result ≡ true → IsThere self.now.sharing (reserved backup.now.risk backup.now.fibres.items backup.now.units) }
    {
        self.has_all(backup.fibres.as_slice())
            && differ(backup.fibres.as_slice())
            && self.has_units(&backup.units)
    }

    /// Adds the backup, where it may be added. Whether it was.
    pub(crate) fn add(&mut self, backup: &Backup) -> bool
        requires { IsBelow self.old.groups backup.now.risk }
    {
        if self.added >= MOST_ADDED || !self.has(backup) {
            return false;
        }
        self.sharing
            .add(&backup.risk, backup.fibres.as_slice(), backup.units);
        self.added += 1;
        true
    }

    /// Whether the backup fits beside all that were added. None where it may not be asked for.
    pub(crate) fn fits(&self, backup: &Backup) -> Option<bool>
        requires { IsBelow self.now.groups backup.now.risk }
    {
        if !self.has(backup) {
            return None;
        }
        Some(
            self.sharing
                .fits(&backup.risk, backup.fibres.as_slice(), backup.units, None),
        )
    }

    /// The least centre where a backup of this width may stand. None also where it may not be asked for.
    pub(crate) fn lowest(&self, risk: &RiskSet, fibres: &[u8], m: u16) -> Option<i16>
        requires { IsBelow self.now.groups risk.now }
    {
        if !self.has_all(fibres) {
            return None;
        }
        self.sharing
            .lowest(&self.maps, risk, fibres, m, self.band, None)
    }
}
