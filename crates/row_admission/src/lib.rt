//! First fit over rows: the first placement of a demand, read from the words of the lit and held units and from the counts
//! of the shared backups that stand for a list of services. A call touches memory in proportion to the pairs, the fibres
//! of a route and the words of a fibre, and never to the services. It takes no memory.
#![tactic(auto)]

pub mod lowest;
pub mod placing;

pub use admission::{Admit, Found};
pub use backup_sharing::Sharing;
pub use flex_grid::band::Band;
pub use leg_state::{Class, Leg, Pair};
pub use lowest::least_back;
pub use placing::first;
pub use spectrum_map::Occupied;
