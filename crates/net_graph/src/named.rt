//! What has a name, and lists of it in the order of names: one look-up and one test of the order.

ghost use Rattle.std.specs.Prelude.{◌≡◌, ◌≤◌, length, map, IsTrue};
ghost use Rattle.eon_model.specs.Names.{name_cmp, is_name, ascend as names_rise};
ghost use Rattle.eon_model.specs.Network as model;
ghost use Rattle.net_graph.specs.Graph.{comes_after};

use eon_base::name::Name;
use std::cmp::Ordering;

/// What has a name.
pub(crate) trait Named {
    ghost use Rattle.std.specs.Prelude.{ℕ, List};

    ghost named: { Self → List ℕ };

    /// Its name.
    fn name(&self) -> &Name
        ensures { result.now ≡ named self.now };
}

impl Named for Name {
    ghost named = { λ n. n };

    fn name(&self) -> &Name {
        self
    }
}

/// The place of the name in this list, which is in the order of names.
pub(crate) fn number_of<T: Named>(list: &[T], name: &Name) -> Option<u8>
    requires few { length list.now ≤ 128 }
    requires rise { IsTrue (names_rise (map T.named list.now)) }
    ensures { result ≡ model.number_of (map T.named list.now) name.now }
{
    let found = list.binary_search_by(
        |item: &T| -> Ordering
            ensures { result ≡ name_cmp (T.named item.now) name.entry.now }
        { item.name().cmp(name) },
    );
    match found {
        Ok(i) => Some(i as u8),
        Err(_) => None,
    }
}

/// Whether the name is above the last one of this list.
pub(crate) fn is_above_last<T: Named>(list: &[T], name: &Name) -> bool
    ensures above { result ≡ comes_after (map T.named list.now) name.now }
    ensures name { IsTrue (is_name name.now) }
{
    let bytes = name.bytes();
    match list.last() {
        Some(last) => last.name().bytes() < bytes,
        None => true,
    }
}

/// Whether each name is above the one before it.
pub(crate) fn names_ascend(names: &[Name]) -> bool
    ensures { result ≡ names_rise names.now }
{
    for (i, name) in names.iter().enumerate() {
        if !is_above_last(&names[..i], name) {
            return false;
        }
    }
    true
}
