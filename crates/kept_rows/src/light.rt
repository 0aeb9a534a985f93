//! Units that are lit.

ghost use Rattle.std.specs.Option.{option_copied};
ghost use Rattle.eon_model.specs.Listings.{lit_by};
ghost use Rattle.kept_rows.specs.Standing.{CanBeLit, IsLitBy, holdings_of, of_class};

use crate::parts::{channel_units, lit_backup};
use leg_state::{Class, Leg, Path};
use spectrum_map::Maps;

// Lights the path, if there is one.
fn light_path(maps: &mut Maps, path: Option<&Path>)
    requires { CanBeLit maps.old (holdings_of (option_copied path)) }
    ensures { IsLitBy maps.old maps.new (holdings_of (option_copied path.entry)) }
{
    if let Some(path) = path {
        maps.add_lit(path.route.fibres(), path.slot.units());
    }
}

// Lights what a leg of this class has lit.
pub(crate) fn light(maps: &mut Maps, class: Class, leg: &Leg)
    requires { CanBeLit maps.old (lit_by (of_class class leg.now)) }
    ensures { IsLitBy maps.old maps.new (lit_by (of_class class leg.now)) }
{
    let work = &leg.work;
    maps.add_lit(work.route.fibres(), channel_units(leg));
    light_path(maps, lit_backup(class, leg));
}
