// Lists of nodes: whether a node stands in one, the nodes that do not, symbols put at the nodes of one, and what an array holds there.
ghost use Rattle.std.specs.Prelude.{◌≡◌, true, ◌||◌, not, map, ◌≤◌, length, get_or};
ghost use Rattle.lists.specs.Counting.{passing_from};
ghost use Rattle.lists.specs.Numbers.{all_below, is_in};
ghost use Rattle.lists.specs.Padded.{padded, zeros};
ghost use Rattle.near_message.specs.Inner.Listed.{put_at};

use arrayvec::ArrayVec;
use node_lists::nodes_where;

// Whether a node stands in the list.
fn is_in(node: u8, nodes: &[u8]) -> bool
    ensures { result ≡ is_in node nodes.now }
{
    nodes.contains(&node)
}

// Whether a node does not stand in the list.
fn is_out(node: u8, nodes: &[u8]) -> bool
    ensures { result ≡ not (is_in node nodes.now) }
{
    !is_in(node, nodes)
}

// The nodes below n that do not stand in the list, rising.
pub fn unlisted(n: u8, nodes: &[u8]) -> ArrayVec<u8, 255>
    ensures { result.items ≡ passing_from n 0 (λ j. not (is_in j nodes.now)) }
{
    nodes_where(n, |j| is_out(j, nodes))
}

// Whether a node stands in one of two lists.
fn is_in_either(node: u8, lost: &[u8], roots: &[u8]) -> bool
    ensures { result ≡ (is_in node lost.now || is_in node roots.now) }
{
    is_in(node, lost) || is_in(node, roots)
}

// The nodes below n that are lost or among the roots, rising.
pub fn suspects(n: u8, lost: &[u8], roots: &[u8]) -> ArrayVec<u8, 255>
    ensures { result.items ≡ passing_from n 0 (λ j. is_in j lost.now || is_in j roots.now) }
{
    nodes_where(n, |j| is_in_either(j, lost, roots))
}

// The symbols put at the nodes of the list, and zeros at all others.
pub fn put(nodes: &[u8], symbols: &[u16]) -> [u16; 255]
    requires { (length symbols.now ≡ length nodes.now) × (all_below 255 nodes.now ≡ true) }
    ensures { result ≡ put_at nodes.now symbols.now (zeros 255) }
{
    let mut out = [0u16; 255];
    for (&node, &symbol) in nodes.iter().zip(symbols) {
        out[node as usize] = symbol;
    }
    out
}

// What an array holds at the nodes of the list, and zeros after that.
#[tactic(auto, using(lists::proofs::Fill::filled_start, lists::proofs::Numbers::below_at), unfolding(lists::specs::Padded::zeros))]
pub fn at_nodes(nodes: &[u8], word: &[u16; 255]) -> [u16; 255]
    requires { (all_below 255 nodes.now ≡ true) × (length nodes.now ≤ 255) }
    ensures { result ≡ padded 255 (map (λ j. get_or word.now j 0) nodes.now) }
{
    let mut out = [0u16; 255];
    for (i, &node) in nodes.iter().enumerate() {
        out[i] = word[node as usize];
    }
    out
}
