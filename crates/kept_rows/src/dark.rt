//! Units that are made dark.

ghost use Rattle.std.specs.Option.{option_copied};
ghost use Rattle.eon_model.specs.Listings.{lit_by};
ghost use Rattle.kept_rows.specs.Standing.{CanGoDark, IsDarkBy, holdings_of, of_class};

use crate::parts::{channel_units, lit_backup};
use leg_state::{Class, Leg, Path};
use spectrum_map::Maps;

// Makes the path dark, if there is one.
fn darken_path(maps: &mut Maps, path: Option<&Path>)
    requires { CanGoDark maps.old (holdings_of (option_copied path)) }
    ensures { IsDarkBy maps.old maps.new (holdings_of (option_copied path.entry)) }
{
    if let Some(path) = path {
        maps.take_lit(path.route.fibres(), path.slot.units());
    }
}

// Makes dark what a leg of this class has lit.
pub(crate) fn darken(maps: &mut Maps, class: Class, leg: &Leg)
    requires { CanGoDark maps.old (lit_by (of_class class leg.now)) }
    ensures { IsDarkBy maps.old maps.new (lit_by (of_class class leg.now)) }
{
    let work = &leg.work;
    maps.take_lit(work.route.fibres(), channel_units(leg));
    darken_path(maps, lit_backup(class, leg));
}
