// The row of the generator that a difference begins with.
ghost use Rattle.std.specs.Prelude.{◌≡◌, ◌<◌, MatchOption, length};
ghost use Rattle.find_update.specs.Inner.Starts.{begins_at, row_starting};

use crate::compare::LaneDifference;

// Whether the difference is not zero at a row's first node, and zero at the node before it, going round; with k = 1 a row lies on every node.
#[tactic(auto, using(lists::proofs::Tests::tests), unfolding(crate::specs::Inner::Starts::begins_at, crate::specs::Inner::Starts::node_before))]
fn begins_at(k: u8, first: usize, difference: &[u16]) -> bool
    requires { first < length difference.now }
    ensures { result ≡ begins_at k difference.now first }
{
    let n = difference.len();
    let before = (first + (n - 1)) % n;
    difference[first] != 0 && (k == 1 || difference[before] == 0)
}

impl LaneDifference<'_> {
    // The least row that the difference begins with. By a `for`, as in `is_multiple`: `firsts[..k].iter().position(..)` asks of all rows at once that
    // their first nodes are below n.
    pub(crate) fn row(self) -> Option<usize>
        ensures { let h = self.entry.codec.code.header in MatchOption result (row_starting h self.entry.symbols.now ≡ h.k) (λ r. (r < h.k) × (row_starting h self.entry.symbols.now ≡ r)) }
    {
        let k = self.codec.code.header.k;
        for r in 0..k as usize {
            let first = self.plan.firsts[r] as usize;
            if begins_at(k, first, self.symbols) {
                return Some(r);
            }
        }
        None
    }
}
