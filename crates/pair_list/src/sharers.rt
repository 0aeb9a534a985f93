//! Which fibres a search leaves out.

ghost use Rattle.std.specs.Prelude.{◌≡◌, ℕ, ◌<◌, length, if◌then◌else◌, IfSome};
ghost use Rattle.std.specs.FinSet as set;
ghost use Rattle.eon_model.specs.Candidates.{is_avoided};
ghost use Rattle.eon_model.specs.Sets.{has_member, meets, set_of};
ghost use Rattle.eon_model.specs.Network.{risks_of_fibre};

use net_graph::{FibreSet, Net, RiskSet};

// The set with the fibre, if one of these risks is one of its own.
fn with_sharer(net: &Net, risks: &RiskSet, fibre: u8, sharers: FibreSet) -> FibreSet
    requires known { fibre < length net.now.fibres }
    requires small { fibre < 128 }
    ensures { result ≡ (if meets (set_of (risks_of_fibre net.now fibre)) risks.now then set.insert sharers fibre else sharers) }
{
    if net.risk(fibre).meets(risks) {
        sharers.with(fibre)
    } else {
        sharers
    }
}

/// The fibres that can fail together with one that has these risks.
pub(crate) fn sharers(net: &Net, risks: &RiskSet) -> FibreSet
    ensures { (i : ℕ) → i < length net.now.fibres → has_member result i ≡ meets (set_of (risks_of_fibre net.now i)) risks.now }
{
    let mut sharers = FibreSet::empty();
    for fibre in 0..net.fibres() {
        sharers = with_sharer(net, risks, fibre, sharers);
    }
    sharers
}

/// The set of the fibre to avoid, if there is one.
pub fn avoided(avoid: Option<u8>) -> FibreSet
    requires { IfSome avoid (λ fibre. fibre < 128) }
    ensures { (i : ℕ) → has_member result i ≡ is_avoided avoid i }
{
    match avoid {
        Some(fibre) => FibreSet::empty().with(fibre),
        None => FibreSet::empty(),
    }
}
