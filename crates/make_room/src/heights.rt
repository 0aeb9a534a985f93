//! Heights in the grid, counted from its floor or from its ceiling.

ghost use Rattle.std.specs.Prelude.{◌≡◌, ◌<◌, ◌≤◌, length};
ghost use Rattle.make_room.specs.Heights.{begin_of, end_of, base_of, end_before_of, backup_end_of, IsMaxTo};

use flex_grid::band::Band;
use flex_grid::units::Units;
use leg_state::holding::share_fibre;
use leg_state::{Path, Service, Services};

/// Units of the grid.
pub(crate) const GRID: u16 = 8192;

/// From where heights are counted.
#[derive(Clone, Copy, Debug, PartialEq, Eq)]
pub enum Side {
    /// From the lowest unit of the grid up.
    Floor,
    /// From its highest unit down.
    Ceiling,
}

// How many units of the grid come before these.
pub(crate) fn begin(from: Side, units: &Units) -> u16
    ensures value { result ≡ begin_of from units.now }
    ensures small { result < 8192 }
{
    match from {
        Side::Floor => (i32::from(units.lo()) + 4096) as u16,
        Side::Ceiling => (4095 - i32::from(units.hi())) as u16,
    }
}

// How many units come before the first one behind these.
pub(crate) fn end(from: Side, units: &Units) -> u16
    ensures value { result ≡ end_of from units.now }
    ensures small { result ≤ 8192 }
{
    match from {
        Side::Floor => (i32::from(units.hi()) + 4097) as u16,
        Side::Ceiling => (4096 - i32::from(units.lo())) as u16,
    }
}

// Where the part of the band begins in which the path stands; where the path does, if it stands in none.
fn base(from: Side, band: &Band, path: &Path) -> u16
    ensures value { result ≡ base_of from band.now path.now }
    ensures small { result < 8192 }
{
    let units = path.slot.units();
    match band.part_of(&units) {
        Some(part) => begin(from, &part),
        None => begin(from, &units),
    }
}

// Where the backup ends, if it comes before the path on a common fibre; else 0.
fn end_before(from: Side, back: &Path, path: &Path) -> u16
    ensures { result ≡ end_before_of from path.now back.now }
{
    let end = end(from, &back.slot.units());
    if share_fibre(&back.route, &path.route) && end <= begin(from, &path.slot.units()) {
        return end;
    }
    0
}

// The same for the backup of a service, 0 where it has none.
fn backup_end(from: Side, other: &Service, path: &Path) -> u16
    ensures { result ≡ backup_end_of from path.now other.now }
{
    match &other.leg.back {
        Some(back) => end_before(from, back, path),
        None => 0,
    }
}

// The greatest of where the path's part of the band begins and of where backups end before the path on common fibres.
pub(crate) fn least_begin(from: Side, services: &Services, band: &Band, path: &Path) -> u16
    ensures { IsMaxTo (backup_end_of from path.now) services.now.list (base_of from band.now path.now) (length services.now.list) result }
{
    let mut least = base(from, band, path);
    for i in 0..services.len() {
        least = least.max(backup_end(from, services.at(i), path));
    }
    least
}
