//! Under which pairs of groups a service is dark.
ghost use Rattle.std.specs.Prelude.{◌≡◌, ◌<◌, ◌≤◌, ◌+◌, ◌^◌, length};
ghost use Rattle.eon_model.specs.LiveFailure as model;
ghost use Rattle.live_failure.specs.Replied.{audit_told, pair_told};
ghost use Rattle.live_failure.specs.Rivals.{with_pair, with_pairs, pairs_with, no_audit};

use crate::dark::is_dark;
use crate::reply::{Audit, GroupPair};
use leg_state::{Service, Services};

// Counts the pair where the service is dark under it, and keeps it where it is the first.
fn note_pair(audit: &mut Audit, pair: GroupPair, dark: bool)
    requires { audit.old.pairs + 1 < 2 ^ 32 }
    ensures told { audit_told audit.new ≡ with_pair (audit_told audit.old) dark (pair_told pair) }
    ensures few { audit.new.pairs ≤ audit.old.pairs + 1 }
{
    if dark {
        audit.pairs += 1;
        if audit.first.is_none() {
            audit.first = Some(pair);
        }
    }
}

// Goes over the pairs of the group with each of these.
fn note_pairs(services: &Services, own: &Service, one: u8, later: &[u8], audit: &mut Audit)
    requires { audit.old.pairs + length later.now < 2 ^ 32 }
    ensures told { audit_told audit.new ≡ with_pairs services.now.list own.now (audit_told audit.old) (pairs_with one later.now) }
    ensures few { audit.new.pairs ≤ audit.old.pairs + length later.now }
{
    for i in 0..later.len() {
        let two = later[i];
        let dark = is_dark(services, &[one, two], own);
        note_pair(audit, GroupPair { one, two }, dark);
    }
}

/// Under how many pairs of these groups the service is dark, and the first of them in this order. It takes no memory.
pub(crate) fn audit(services: &Services, order: &[u8], own: &Service) -> Audit
    requires { length order.now ≤ 256 }
    ensures { audit_told result ≡ with_pairs services.now.list own.now no_audit (model.pairs_in_order order.now) }
{
    let mut audit = Audit {
        pairs: 0,
        first: None,
    };
    for i in 0..order.len() {
        note_pairs(services, own, order[i], &order[i + 1..], &mut audit);
    }
    audit
}
