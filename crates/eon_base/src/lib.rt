//! Names and whole numbers, as they are read from bytes and spelled again, and counts of steps. The layers above may use
//! each type and call of `name`, `number` and `spelling`, and cite the laws of `laws`.
#![tactic(auto)]

pub mod laws;
pub mod name;
pub mod number;
pub mod spelling;
pub mod steps;
