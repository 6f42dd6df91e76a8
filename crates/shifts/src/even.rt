// The rule of Lemma 2.
ghost use Rattle.std.specs.Prelude.{◌≡◌, ◌+◌, ◌≤◌, ◌<◌};
ghost use Rattle.lists.specs.Padded.{padded};
ghost use Rattle.generator.specs.Shifts.{next_place, shifts_from, even_shifts};

use crate::gcd;
use generator::Dimensions;

// The place after this one on a round of so many.
fn next_place(round: u32, place: u32) -> u32
    requires { place < round }
    ensures { (result ≡ next_place round place) × (result < round) }
{
    let next = place + 1;
    if next == round { 0 } else { next }
}

// The numbers below n on rounds that take and then skip so many, rising, and zeros after them. `place` is the place in the round: by
// `nodes_where` with a remainder for each number a plan takes up to three times as long.
fn rounds(n: u8, taken: u32, skipped: u32) -> [u8; 255]
    requires { (0 < taken + skipped) × (taken + skipped ≤ 255) }
    ensures { result ≡ padded 255 (shifts_from n 0 taken skipped 0) }
{
    let mut out = [0u8; 255];
    let mut count: usize = 0;
    let mut place: u32 = 0;
    for i in 0..n {
        if place < taken {
            out[count] = i;
            count += 1;
        }
        place = next_place(taken + skipped, place);
    }
    out
}

// The k shifts, rising, and zeros after them.
pub fn even_shifts(dimensions: Dimensions) -> [u8; 255]
    ensures { result ≡ padded 255 (even_shifts dimensions.n dimensions.k) }
{
    let Dimensions { n, k, .. } = dimensions;
    let g = gcd(k as u32, n as u32);
    let taken = k as u32 / g;
    let skipped = (n - k) as u32 / g;
    rounds(n, taken, skipped)
}
