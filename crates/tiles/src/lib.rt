// Tiles: some lanes of a buffer as rows of their own, so that each row is worked on as a whole; 64 lanes, or any number of them.
#![tactic(auto)]

mod columns;
mod gathering;
mod lanes;
mod many_lanes;
mod moves;
mod scattering;
mod size;
mod squares;
mod turning;

pub use columns::{gather_lanes, scatter};
pub use gathering::gather64;
pub use scattering::scatter64;
pub use size::tile_lanes;
