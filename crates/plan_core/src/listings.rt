//! What the listings say.
ghost use Rattle.std.specs.Prelude.{◌≡◌, IsTrue, IfOk};
ghost use Rattle.eon_model.specs.Legal.{Legal};
ghost use Rattle.eon_model.specs.NetworkText.{is_setup};
ghost use Rattle.eon_model.specs.Listings.{totals, report_text as report_of};
ghost use Rattle.eon_model.specs.Replies.{Reply as said};
ghost use Rattle.eon_model.specs.Step as step;
ghost use Rattle.reply_text.specs.Replied.{reply_told};

use eon_base::name::Name;
use leg_state::Services;
use net_setup::NetSetup;
use plan_report::{map_text, report_text, totals};
use reply_text::Reply;
use std::alloc::{AllocError, Global};

/// What `stats` says.
pub fn stats(setup: &NetSetup, services: &Services) -> Reply
    requires in_range { IsTrue (is_setup setup.now) }
    requires legal { Legal setup.now services.now.list }
    ensures { reply_told result ≡ said.Stats (totals setup.now services.now.list) }
{
    Reply::Stats {
        stats: totals::stats(setup, services),
    }
}

/// What `map` says.
pub fn map(
    alloc: Global,
    setup: &NetSetup,
    services: &Services,
    fibre: &Name,
) -> Result<Reply, AllocError>
    requires in_range { IsTrue (is_setup setup.now) }
    requires legal { Legal setup.now services.now.list }
    ensures { IfOk result (λ r. step.Say (reply_told r) ≡ step.map_of setup.now services.now.list fibre.now) }
{
    match setup.net.fibre_of(fibre) {
        Some(number) => {
            let text = map_text(alloc, setup, services, number)?;
            Ok(Reply::Map { text })
        }
        None => Ok(Reply::Unknown { name: *fibre }),
    }
}

/// What `drill` says.
pub fn drill(
    alloc: Global,
    setup: &NetSetup,
    services: &Services,
    group: &Name,
) -> Result<Reply, AllocError>
    requires in_range { IsTrue (is_setup setup.now) }
    requires legal { Legal setup.now services.now.list }
    ensures { IfOk result (λ r. step.Say (reply_told r) ≡ step.drill setup.now.network services.now.list group.now) }
{
    match setup.net.risk_of(group) {
        Some(number) => {
            let hits = failure_drill::drill(alloc, services, number)?;
            Ok(Reply::Drill {
                group: *group,
                hits,
            })
        }
        None => Ok(Reply::Unknown { name: *group }),
    }
}

/// What `report` says.
pub fn report(alloc: Global, setup: &NetSetup, services: &Services) -> Result<Reply, AllocError>
    requires in_range { IsTrue (is_setup setup.now) }
    requires legal { Legal setup.now services.now.list }
    ensures { IfOk result (λ r. reply_told r ≡ said.Report (report_of setup.now services.now.list)) }
{
    let text = report_text(alloc, setup, services)?;
    Ok(Reply::Report { text })
}
