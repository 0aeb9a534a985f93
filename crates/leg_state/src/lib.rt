//! The live services and what they hold: paths, legs, and the list of services in order of admission. The
//! layers above change the list by the calls of `Services`, ask `first_clash` which service a leg disturbs, or
//! `first_clash_with` for a leg that is not there yet, and cite the laws of `laws`.
#![tactic(auto)]

pub mod clash;
pub mod fibre_numbers;
pub mod holding;
pub mod laws;
pub mod leg;
pub mod pair;
pub mod service;
pub mod services;
pub mod view;

pub use clash::{first_clash, first_clash_with};
pub use eon_base::name::Name;
pub use eon_model::Class;
pub use fibre_numbers::FibreNumbers;
pub use flex_grid::slot::Slot;
pub use leg::{Leg, Path};
pub use net_graph::Route;
pub use pair::{Pair, Spare};
pub use service::Service;
pub use services::Services;
pub use view::{LegView, PathView};
