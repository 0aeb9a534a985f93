//! Where a block of units is free on the fibres of a route. The words of the fibres are joined once into one row, and the
//! least block is found in that row by shifts of whole words. No call takes memory.
#![tactic(auto)]

pub mod centres;
pub mod outside;
pub mod runs;

pub use centres::{lowest, lowest_unmarked};
pub use flex_grid::band::Band;
pub use spectrum_map::{Occupied, Row};
