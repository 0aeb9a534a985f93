//! What is told of a state as a whole: its totals, the map of a fibre, and the report. The layer above prints
//! a `Text` as it stands, and `Stats` as one line.
#![tactic(auto)]

mod lines;
pub mod map;
pub mod report;
mod rows;
pub mod stats;
pub mod text;
pub mod totals;

pub use map::map_text;
pub use report::report_text;
pub use stats::Stats;
pub use text::Text;
