//! Slots of the flexible grid of ITU-T G.694.1, the units of 6.25 GHz that they take, and the band of a
//! network. The layers above may use each type and call of `slot`, `units` and `band`, and cite the laws
//! of `laws`.
#![tactic(auto)]

pub mod band;
pub mod laws;
pub mod slot;
pub mod units;
