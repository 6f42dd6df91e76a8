// Shares that stand node after node written lane after lane, and back.
ghost use Rattle.balanced_c.specs.Calls.{ToLanesGives, ToNodesGives, ListedToLanesGives, ListedToNodesGives};

use crate::number_of;

// Shares that stand node after node, written lane after lane.
pub fn balanced_to_lanes(rec: &[u8], lanes: u32, by_node: &[u8], by_lane: &mut [u8]) -> u8
    ensures { ToLanesGives rec.now lanes by_node.now by_lane.old by_lane.new result }
{
    number_of(balanced::to_lanes(rec, lanes, by_node, by_lane))
}

// Shares that stand lane after lane, written node after node.
pub fn balanced_to_nodes(rec: &[u8], lanes: u32, by_lane: &[u8], by_node: &mut [u8]) -> u8
    ensures { ToNodesGives rec.now lanes by_lane.now by_node.old by_node.new result }
{
    number_of(balanced::to_nodes(rec, lanes, by_lane, by_node))
}

// The shares of k listed nodes, written lane after lane.
pub fn balanced_listed_to_lanes(rec: &[u8], lanes: u32, by_node: &[u8], by_lane: &mut [u8]) -> u8
    ensures { ListedToLanesGives rec.now lanes by_node.now by_lane.old by_lane.new result }
{
    number_of(balanced::listed_to_lanes(rec, lanes, by_node, by_lane))
}

// The shares of k listed nodes, written node after node.
pub fn balanced_listed_to_nodes(rec: &[u8], lanes: u32, by_lane: &[u8], by_node: &mut [u8]) -> u8
    ensures { ListedToNodesGives rec.now lanes by_lane.now by_node.old by_node.new result }
{
    number_of(balanced::listed_to_nodes(rec, lanes, by_lane, by_node))
}
