//! A view of the spectrum that can be changed, over one that cannot. A layer begins equal to its base, and lights units or
//! makes them dark for itself alone: what would stand is looked at, and the base stays as it is. It writes into rows that it
//! borrows, and takes each over from the base at its first change there; to begin a layer costs nothing in the size of the
//! band. Only `LayerRows::new` takes memory.
#![tactic(auto)]

pub mod layer;
mod marks;
pub mod rows;

pub use flex_grid::band::Band;
pub use flex_grid::units::Units;
pub use layer::Layer;
pub use rows::LayerRows;
pub use spectrum_map::{Occupied, Row};
