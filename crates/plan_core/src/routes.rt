//! What `routes` says.
ghost use Rattle.std.specs.Prelude.{◌≡◌, IsTrue, IfOk};
ghost use Rattle.eon_model.specs.NetworkText.{is_setup};
ghost use Rattle.eon_model.specs.Step as step;
ghost use Rattle.reply_text.specs.Replied.{reply_told};

use crate::demand::node_numbered;
use crate::refusal::unknown_end;
use eon_base::name::Name;
use kept_routes::KeptRoutes;
use net_setup::NetSetup;
use reply_text::Reply;
use std::alloc::{AllocError, Global};

/// What `routes` says.
pub fn routes_between(
    alloc: Global,
    kept: &mut KeptRoutes,
    setup: &NetSetup,
    src: &Name,
    dst: &Name,
) -> Result<Reply, AllocError>
    requires same { kept.old ≡ setup.now }
    requires in_range { IsTrue (is_setup setup.now) }
    ensures is { IfOk result (λ r. step.Say (reply_told r) ≡ step.routes setup.now src.now dst.now) }
    ensures same { kept.new ≡ kept.old }
{
    if let Some(name) = unknown_end(&setup.net, src, dst) {
        return Ok(Reply::Unknown { name });
    }
    let s = node_numbered(&setup.net, src);
    let t = node_numbered(&setup.net, dst);
    let routes = kept.routes_kept(alloc, setup, s, t, None)?;
    Ok(Reply::Routes { routes })
}
