// What each node has to add where one row of a message changes, a node's share with that added, and Update for a run of lanes.
ghost use Rattle.balanced_c.specs.RowChanges.{DifferencesGives, AddGives, UpdateLanesGives};

use crate::{hand_over, number_of};

// What each node adds, node after node, where the row of a symbol changes from old to new in every lane.
pub fn balanced_differences(
    rec: &[u8],
    lanes: u32,
    symbol: u32,
    old: &[u8],
    new: &[u8],
    differences: &mut [u8],
) -> u8
    ensures { DifferencesGives rec.now lanes symbol old.now new.now differences.old differences.new result }
{
    number_of(balanced::differences(rec, lanes, symbol, old, new, differences))
}

// A node's share with its difference added.
pub fn balanced_add_share(rec: &[u8], lanes: u32, difference: &[u8], share: &mut [u8]) -> u8
    ensures { AddGives rec.now lanes difference.now share.old share.new result }
{
    number_of(balanced::add_share(rec, lanes, difference, share))
}

// Update for a run of lanes: `altered` receives how many symbols were altered.
pub fn balanced_update_lanes(
    rec: &[u8],
    lanes: u32,
    symbol: u32,
    first: u32,
    old: &[u8],
    new: &[u8],
    shares: &mut [u8],
    altered: &mut u32,
) -> u8
    ensures { UpdateLanesGives rec.now lanes symbol first old.now new.now shares.old altered.old shares.new altered.new result }
{
    let answer = balanced::update_lanes(rec, lanes, symbol, first, old, new, shares);
    hand_over(answer, altered)
}
