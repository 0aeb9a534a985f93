//! Routes that were searched for, kept for the next demand with the same ends. The layer above asks `routes_kept` of a
//! table that was made for its network, and has the answer of the search, found now or before; or `pairs_kept`, and has the
//! candidates of a demand, made of such routes.
#![tactic(auto)]

mod candidates;
mod noted_setup;
mod table;

pub use candidates::pairs_kept;
pub use net_graph::RouteList;
pub use pair_list::{Class, PairList};
pub use table::KeptRoutes;
