//! Replies of several lines.
ghost use Rattle.std.specs.Prelude.{◌≡◌, ◌+◌, ◌<◌, [], ◌∷◌, ◌++◌, length, codes, IsTrue};
ghost use Rattle.std.specs.List.{flat_map, list_all};
ghost use Rattle.std.specs.Fmt.{decimal};
ghost use Rattle.eon_model.specs.Legal.{Legal};
ghost use Rattle.eon_model.specs.NetworkText.{is_setup};
ghost use Rattle.eon_model.specs.Network.{AreFibres, names_of_fibres};
ghost use Rattle.eon_model.specs.Spelling.{line, fibre_list};
ghost use Rattle.eon_model.specs.ReplyText.{service_line, route_lines, format_name, word_line};
ghost use Rattle.line_writer.specs.Words.{behind};
ghost use Rattle.line_writer.specs.Sent.{Takes};
ghost use Rattle.reply_text.specs.Tellable.{can_show};

use crate::fibre_lists::put_fibres;
use crate::services::put_service;
use leg_state::Services;
use line_writer::{TextSink, end_line, put_name, put_number, put_word};
use net_graph::{Route, RouteList};
use net_setup::NetSetup;
use reach_table::table::Table;

// A word and a count.
fn put_count_line<W: TextSink>(word: &[u8], count: usize, out: &mut W)
    ensures { Takes (W.sent out.old) (W.sent out.new) (line (word.now ∷ decimal count ∷ [])) }
{
    out.put(word);
    put_number(count as u64, out);
    end_line(out);
}

// The line of each service.
fn put_each_service<W: TextSink>(setup: &NetSetup, services: &Services, out: &mut W)
    requires setup { IsTrue (is_setup setup.now) }
    requires legal { Legal setup.now services.now.list }
    ensures { Takes (W.sent out.old) (W.sent out.new) (flat_map (service_line setup.now.network) services.now.list) }
{
    for i in 0..services.len() {
        put_service(&setup.net, services.at(i), out);
    }
}

/// How many services there are, and the line of each.
pub(crate) fn put_services<W: TextSink>(setup: &NetSetup, services: &Services, out: &mut W)
    requires setup { IsTrue (is_setup setup.now) }
    requires legal { Legal setup.now services.now.list }
    ensures { Takes (W.sent out.old) (W.sent out.new)
        (word_line (codes "list") (decimal (length services.now.list)) ++ flat_map (service_line setup.now.network) services.now.list) }
{
    put_count_line(b"list", services.len(), out);
    put_each_service(setup, services, out);
}

// The name of the format for so many km, if there is one.
fn put_format<W: TextSink>(table: &Table, km: u32, out: &mut W)
    ensures { Takes (W.sent out.old) (W.sent out.new) (behind (format_name table.now.rows km ∷ [])) }
{
    match table.pick(km) {
        Some(place) => put_name(&table.row(place).name, out),
        None => put_word(b"", out),
    }
}

// The line of a route.
fn put_route<W: TextSink>(setup: &NetSetup, rank: u64, route: &Route, out: &mut W)
    requires { AreFibres setup.now.network.fibres route.now.fibres }
    ensures { Takes (W.sent out.old) (W.sent out.new)
        (line (codes "route" ∷ decimal rank ∷ decimal route.now.km ∷ format_name setup.now.formats route.now.km
        ∷ fibre_list (names_of_fibres setup.now.network.fibres route.now.fibres) ∷ [])) }
{
    let km = route.km();
    out.put(b"route");
    put_number(rank, out);
    put_number(km as u64, out);
    put_format(&setup.table, km, out);
    put_fibres(&setup.net, route.fibres(), out);
    end_line(out);
}

// The line of each route.
fn put_each_route<W: TextSink>(setup: &NetSetup, routes: &RouteList, out: &mut W)
    requires { IsTrue (list_all (can_show setup.now) routes.now) }
    ensures { Takes (W.sent out.old) (W.sent out.new) (route_lines setup.now 1 routes.now) }
{
    for i in 0..routes.len() {
        put_route(setup, i as u64 + 1, routes.at(i), out);
    }
}

/// How many routes there are, and the line of each.
pub(crate) fn put_routes<W: TextSink>(setup: &NetSetup, routes: &RouteList, out: &mut W)
    requires { IsTrue (list_all (can_show setup.now) routes.now) }
    ensures { Takes (W.sent out.old) (W.sent out.new)
        (word_line (codes "routes") (decimal (length routes.now)) ++ route_lines setup.now 1 routes.now) }
{
    put_count_line(b"routes", routes.len(), out);
    put_each_route(setup, routes, out);
}
