// Sums of rows times weights over the field of 256 elements, for tiles of 64 lanes and at most 256 rows. Of each four rows the sums of
// all subsets are made once, and each output adds, for every binary digit of its weights, one such sum for each four rows.
#![tactic(auto)]

mod horner;
mod slices;
mod table;

pub use horner::Listed;
pub use slices::{fill_spread, list_output};
pub use table::fill_table;
