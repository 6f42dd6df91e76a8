// The nodes that send: neither the target nor missing.
ghost use Rattle.std.specs.Prelude.{◌≡◌};
ghost use Rattle.lists.specs.Counting.{passing_from};
ghost use Rattle.lists.specs.Numbers.{is_in};
ghost use Rattle.traces.specs.Repairs.{sends};

use arrayvec::ArrayVec;
use node_lists::nodes_where;

// Whether a number is in a list.
pub fn is_in(x: u32, list: &[u8]) -> bool
    ensures { result ≡ is_in x list.now }
{
    list.iter().any(|y| x == *y as u32)
}

// Whether a node sends.
pub fn sends(target: u32, missing: &[u8], node: u32) -> bool
    ensures { result ≡ sends target missing.now node }
{
    if node == target {
        return false;
    }
    !is_in(node, missing)
}

// The nodes below n that send, rising.
pub fn list_senders(n: u8, target: u32, missing: &[u8]) -> ArrayVec<u8, 255>
    ensures { result.items ≡ passing_from n 0 (sends target missing.now) }
{
    nodes_where(n, |j| sends(target, missing, u32::from(j)))
}
