// What turns a call away: the condition of each number. Each call puts its own together.
#![tactic(auto)]

mod conditions;
mod field_symbols;
mod nodes;

pub use conditions::{buffer_bad, lane_length_bad, lanes_bad, length_bad, number_bad};
pub use field_symbols::{lane_bad, shares_bad, symbol_bad, symbols_bad};
pub use nodes::{list_fault, nodes_bad, twice_bad};
