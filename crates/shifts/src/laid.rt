// Rows laid end to end.
ghost use Rattle.std.specs.Prelude.{◌≡◌, ◌-◌, ◌≤◌, ◌<◌};
ghost use Rattle.lists.specs.Padded.{padded};
ghost use Rattle.generator.specs.Shifts.{period as period_of, laid_at, laid_shifts};

use crate::{gcd, negative};
use generator::Dimensions;

// The number of rows that are laid before they come round.
fn period(n: u32, d: u32) -> u32
    requires { (0 < d) × (d ≤ n) }
    ensures { (result ≡ period_of n d) × (0 < result) }
{
    n / gcd(n, d)
}

// The node at which row r begins, where m rows come round. The four are reckoned with as one type: `n: u8`, which would say n ≤ 255, would be
// cast here, and d, m and r would keep their clauses.
#[tactic(auto, unfolding(generator::specs::Shifts::laid_at))]
fn laid_at(n: u32, d: u32, m: u32, r: u32) -> u32
    requires { (d ≤ n) × (n ≤ 255) × (m ≡ period_of n d) × (0 < m) × (r < n) }
    ensures { (result ≡ laid_at n d r) × (result < n) }
{
    (r / m + r % m * d) % n
}

// The k shifts in the order of the rows, and zeros after them.
pub fn laid_shifts(dimensions: Dimensions) -> [u8; 255]
    ensures { result ≡ padded 255 (laid_shifts dimensions.n dimensions.k) }
{
    let Dimensions { n, k, .. } = dimensions;
    let nodes = n as u32;
    let d = dimensions.distance() as u32;
    let m = period(nodes, d);
    let mut out = [0u8; 255];
    for (r, shift) in out[..k as usize].iter_mut().enumerate() {
        let first = laid_at(nodes, d, m, r as u32);
        *shift = negative(n as usize, first as usize) as u8;
    }
    out
}
