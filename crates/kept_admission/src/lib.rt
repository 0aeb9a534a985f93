//! First fit over kept rows: the first placement of a demand among its candidates on a network, and the least centre of a
//! shared backup, read from the rows that stand for the list of services, and never from the list. The layer above asks
//! `first_for_new_service`, `first_for_second_leg` and `least_backup`. No call takes memory.
#![tactic(auto)]

pub mod backup;
pub mod placing;

pub use backup::least_backup;
pub use kept_rows::KeptRows;
pub use leg_state::{Class, Leg, Pair, Path, Service};
pub use net_setup::NetSetup;
pub use placing::{first_for_new_service, first_for_second_leg};
pub use row_admission::{Admit, Found};
