//! Whether two names are the same.
ghost use Rattle.std.specs.Prelude.{◌≡◌};
ghost use Rattle.eon_model.specs.Names.{same_name};

use eon_base::name::Name;

/// Whether both are the same bytes.
pub(crate) fn same_name(name: &Name, other: &Name) -> bool
    ensures { result ≡ same_name name.now other.now }
{
    *name == *other
}
