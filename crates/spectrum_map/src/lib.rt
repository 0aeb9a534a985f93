//! The spectrum of a network in words: which units of each fibre are lit, and which ones shared backups hold, with the
//! number of these. The layers above ask `Maps` and every other view through `Occupied`.
#![tactic(auto)]

mod bits;
mod counts;
pub mod maps;
pub mod occupied;
pub mod row;

pub use flex_grid::band::Band;
pub use flex_grid::units::Units;
pub use maps::Maps;
pub use occupied::Occupied;
pub use row::Row;
