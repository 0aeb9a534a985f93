//! To which side of a block each channel goes.

ghost use Rattle.std.specs.Prelude.{◌≡◌, ◌≤◌, int_lt};
ghost use Rattle.make_room.specs.Sides.{ends_so, down_so, up_so, beyond_so};

use crate::heights::{Side, begin};
use leg_state::holding::share_fibre;
use leg_state::{Path, Service};

// Whether a path that begins here, from this side, ends before the block on a common fibre.
pub(crate) fn ends_before(from: Side, at: u16, path: &Path, block: &Path) -> bool
    requires { at ≤ 8192 }
    ensures { result ≡ ends_so from block.now path.now at }
{
    let m = path.slot.m();
    share_fibre(&path.route, &block.route) && at + (m + m) <= begin(from, &block.slot.units())
}

// Whether the centre of the path is below the other one's.
fn is_lower(path: &Path, block: &Path) -> bool
    ensures { result ≡ int_lt path.now.slot.n block.now.slot.n }
{
    path.slot.n() < block.slot.n()
}

// Whether a channel with these lowest and highest places goes below the block: it can, and its centre is below the
// block's or it cannot be above.
fn goes_down(block: &Path, path: &Path, low: u16, high: u16) -> bool
    requires low { low ≤ 8192 }
    requires high { high ≤ 8192 }
    ensures { result ≡ down_so block.now path.now low high }
{
    ends_before(Side::Floor, low, path, block)
        && (is_lower(path, block) || !ends_before(Side::Ceiling, high, path, block))
}

// Whether it goes above the block: it can, and does not go below.
fn goes_up(block: &Path, path: &Path, low: u16, high: u16) -> bool
    requires low { low ≤ 8192 }
    requires high { high ≤ 8192 }
    ensures { result ≡ up_so block.now path.now low high }
{
    ends_before(Side::Ceiling, high, path, block) && !goes_down(block, path, low, high)
}

// Whether it goes beyond the block, seen from this side.
fn path_goes_beyond(from: Side, block: &Path, path: &Path, low: u16, high: u16) -> bool
    requires low { low ≤ 8192 }
    requires high { high ≤ 8192 }
    ensures { result ≡ beyond_so from block.now path.now low high }
{
    match from {
        Side::Ceiling => goes_down(block, path, low, high),
        Side::Floor => goes_up(block, path, low, high),
    }
}

// The same for the channel of a service.
pub(crate) fn goes_beyond(from: Side, block: &Path, service: &Service, low: u16, high: u16) -> bool
    requires low { low ≤ 8192 }
    requires high { high ≤ 8192 }
    ensures { result ≡ beyond_so from block.now service.now.leg.work low high }
{
    path_goes_beyond(from, block, &service.leg.work, low, high)
}
