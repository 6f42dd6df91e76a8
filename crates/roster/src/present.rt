// The present nodes in a list.
ghost use Rattle.std.specs.Prelude.{◌≡◌, ◌≤◌, ◌<◌, length};
ghost use Rattle.lists.specs.Around.{around};
ghost use Rattle.lists.specs.Rows.{from};
ghost use Rattle.roster.specs.Rosters.{present_of};

use arrayvec::ArrayVec;
use node_lists::nodes_where;

// The present nodes below n, rising.
#[tactic(auto, unfolding(crate::specs::Rosters::present_of))]
pub fn list_present(marks: &[bool; 255], n: u8) -> ArrayVec<u8, 255>
    ensures { result.items ≡ present_of n marks.now }
{
    nodes_where(n, |j| marks[usize::from(j)])
}

// Writes the nodes at the places from `first` on, going round.
#[tactic(auto, using(lists::proofs::Rows::from_end_at, lists::proofs::Fill::fills_start, lists::proofs::Fill::fills_all))]
pub fn write_nodes(nodes: &[u8], first: usize, list: &mut [u8])
    requires { (0 < length nodes.now) × (first ≤ 65535) × (length list.old ≤ 255) }
    ensures { list.new ≡ from (around nodes.now) first (length list.old) }
{
    for (t, node) in list.iter_mut().enumerate() {
        *node = nodes[(first + t) % nodes.len()];
    }
}
