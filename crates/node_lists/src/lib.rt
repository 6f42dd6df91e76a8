// Lists of nodes.
#![tactic(auto)]

ghost use Rattle.std.specs.Prelude.{◌≡◌, ◌<◌, ℕ, Bool};
ghost use Rattle.lists.specs.Counting.{passing_from};

use arrayvec::ArrayVec;

// The nodes below n that pass a test, rising: those of every q that says what the test gives.
pub fn nodes_where<F: Fn(u8) -> bool>(n: u8, test: F) -> ArrayVec<u8, 255>
    requires { (j : ℕ) → j < n → F.pre test j }
    ensures { (q : ℕ → Bool) → ((j : ℕ) (b : Bool) → j < n → F.post test j b → b ≡ q j) → result.items ≡ passing_from n 0 q }
{
    let mut nodes = ArrayVec::new();
    for j in 0..n {
        if test(j) {
            nodes.push(j);
        }
    }
    nodes
}
