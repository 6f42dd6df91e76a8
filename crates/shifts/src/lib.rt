// The shifts of the generator's rows, and the nodes at which the rows begin. The shifts are by the rule of Lemma 2 where n divides k·d, and else those of rows laid end to end.
#![tactic(auto)]

ghost use Rattle.std.specs.Prelude.{◌≡◌, ◌<◌};
ghost use Rattle.lists.specs.Padded.{padded};
ghost use Rattle.generator.specs.Shifts.{gcd as gcd_of, negative as negative_of, is_even, shifts_of, firsts_of};

mod even;
mod laid;

use generator::Dimensions;

// Where the rows stand: for each its shift and its first node, as the interface for C gives them: 255 places each, zeros after the last.
#[derive(Clone, Copy)]
pub struct Rows {
    pub shifts: [u8; 255],
    pub firsts: [u8; 255],
}

// The greatest common divisor, by Euclid's algorithm.
pub fn gcd(x: u32, y: u32) -> u32
    ensures { result ≡ gcd_of x y }
{
    let mut a = x;
    let mut b = y;
    while b != 0 {
        let r = a % b;
        a = b;
        b = r;
    }
    a
}

// −x modulo n.
pub fn negative(n: usize, x: usize) -> usize
    requires { x < n }
    ensures { (result ≡ negative_of n x) × (result < n) }
{
    if x == 0 { 0 } else { n - x }
}

// Whether n divides k·d.
#[tactic(auto, unfolding(generator::specs::Shifts::is_even))]
pub fn is_even(dimensions: Dimensions) -> bool
    ensures { result ≡ is_even dimensions.n dimensions.k }
{
    let n = dimensions.n as u32;
    let k = dimensions.k as u32;
    let d = dimensions.distance() as u32;
    (k * d).is_multiple_of(n)
}

// The k shifts in the order of the rows, and zeros after them.
#[tactic(auto, unfolding(generator::specs::Shifts::shifts_of))]
pub fn shifts_of(dimensions: Dimensions) -> [u8; 255]
    ensures { result ≡ padded 255 (shifts_of dimensions.n dimensions.k) }
{
    if is_even(dimensions) {
        return even::even_shifts(dimensions);
    }
    laid::laid_shifts(dimensions)
}

// The k first nodes in the order of the rows, each the negative of its shift, and zeros after them.
fn firsts_of(dimensions: Dimensions, shifts: &[u8; 255]) -> [u8; 255]
    requires { shifts.now ≡ padded 255 (shifts_of dimensions.n dimensions.k) }
    ensures { result ≡ padded 255 (firsts_of dimensions.n dimensions.k) }
{
    let Dimensions { n, k, .. } = dimensions;
    let mut out = [0u8; 255];
    for r in 0..k {
        let shift = shifts[r as usize] as usize;
        let first = negative(n as usize, shift);
        out[r as usize] = first as u8;
    }
    out
}

// The shifts and the first nodes of the k rows, and zeros after them.
pub fn place_rows(dimensions: Dimensions) -> Rows
    ensures { (result.shifts ≡ padded 255 (shifts_of dimensions.n dimensions.k)) × (result.firsts ≡ padded 255 (firsts_of dimensions.n dimensions.k)) }
{
    let shifts = shifts_of(dimensions);
    let firsts = firsts_of(dimensions, &shifts);
    Rows { shifts, firsts }
}
