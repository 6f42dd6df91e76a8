// Repair by traces, for one target and the nodes that are missing beside it: the nodes that send, the digit that a node sends for each symbol, and the weight of each bit that is sent.
#![tactic(auto)]

mod bits;
mod nodes;
mod senders;
mod subfields;
mod tables;

pub use bits::Bits;
pub use nodes::Target;
pub use senders::{is_in, sends};
