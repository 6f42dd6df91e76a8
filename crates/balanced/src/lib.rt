// The calls of the balanced image store; those of a roster are methods of `Roster`. Every call takes the record itself; none has a precondition.
#![tactic(auto)]

pub use belongs::block_belongs;
pub use carry::{carried_len, carry_change, carry_in, carry_out};
pub use choose::choose_record;
pub use correct::correct_block;
pub use correct_listed::correct_listed;
pub use differences::{add_share, differences};
pub use encode::encode_block;
pub use find_update::{Finding, find_update};
pub use generator::Refusal;
pub use mends::single_mends;
pub use plan::build_plan;
pub use rearrange::{listed_to_lanes, listed_to_nodes, to_lanes, to_nodes};
pub use recover::{rebuild_share, recover_block};
pub use repair::{RepairPlan, repair_bits, repair_plan, repair_share};
pub use roster::{Listing, Roster};
pub use update::update_lane;
pub use update_lanes::update_lanes;
pub use weight_counts::weight_counts;
