// The locator of a sequence, by Berlekamp and Massey. Polynomials are arrays of coefficients, the constant first.
ghost use Rattle.std.specs.Prelude.{◌≡◌, ◌+◌, ◌≤◌, ◌<◌, get_or};
ghost use Rattle.lists.specs.Rows.{from};
ghost use Rattle.lists.specs.Padded.{padded};
ghost use Rattle.field.specs.Fields.{size_of, mul};
ghost use Rattle.field.specs.Kinds.{modulus};
ghost use Rattle.decode.specs.Inner.Locating.{Below, partial, shifted, amended_at, Locates};

use field::Field;
use field::lent::Arithmetic;
use interpolation::sums::weighted_sum;

// Coefficient x of x^i·w.
#[tactic(auto, using(crate::proofs::Arrays::shifted_low, crate::proofs::Arrays::shifted_high))]
fn at(w: &[u16; 255], i: usize, x: usize) -> u32
    requires { x < 255 }
    ensures { result ≡ shifted w.now i x }
{
    if x < i { 0 } else { w[x - i] as u32 }
}

// What the algorithm holds after some steps: the sequence s, the locator w at hand, and v, which is w before its degree grew last, times a constant.
// Arrays with zeros after: how much of each is used the degree and the number of steps say.
#[derive(Clone, Copy)]
struct Registers<'f, 'a> {
    field: Arithmetic<'f>,
    s: &'a [u16; 255],
    w: &'a [u16; 255],
    v: &'a [u16; 255],
    ghost sequence: { Below (size_of (modulus field.field)) s.now },
    ghost at_hand: { Below (size_of (modulus field.field)) w.now },
    ghost before: { Below (size_of (modulus field.field)) v.now },
}

impl Registers<'_, '_> {
    // The sum of w[i]·s[e + i] over i < m.
    fn discrepancy(self, e: usize, m: usize) -> u32
        requires { e + m ≤ 255 }
        ensures is { result ≡ partial (modulus self.entry.field.field) self.entry.w.now self.entry.s.now e m }
        ensures symbol { result < size_of (modulus self.entry.field.field) }
    {
        let Registers { field, s, w, .. } = self;
        weighted_sum(field, &w[..m], &s[e..])
    }

    // The first coefficients of x^i·w − d·x^j·v, and zeros after them.
    #[tactic(auto, using(lists::proofs::Fill::filled_start, lists::proofs::Fill::filled_end), unfolding(lists::specs::Padded::zeros))]
    fn amended(self, d: u32, i: usize, j: usize, size: usize) -> [u16; 255]
        requires { (d < size_of (modulus self.field.field)) × (size ≤ 255) }
        ensures { result ≡ padded 255 (from (amended_at (modulus self.entry.field.field) d self.entry.w.now i self.entry.v.now j) 0 size) }
    {
        let mut out = [0u16; 255];
        for x in 0..size {
            let product = self.field.mul(d, at(self.v, j, x));
            out[x] = self.field.sub(at(self.w, i, x), product) as u16;
        }
        out
    }

    // The first coefficients of d·w, and zeros after them. By index, as in `amended`: a loop over `w[..size]` was tried, and at its end a proof does not
    // know that the array behind w has so many places.
    #[tactic(auto, using(lists::proofs::Fill::filled_start, lists::proofs::Fill::filled_end), unfolding(lists::specs::Padded::zeros))]
    fn scaled(self, d: u32, size: usize) -> [u16; 255]
        requires { (d < size_of (modulus self.field.field)) × (size ≤ 255) }
        ensures { result ≡ padded 255 (from (λ x. mul (modulus self.entry.field.field) d (get_or self.entry.w.now x 0)) 0 size) }
    {
        let mut out = [0u16; 255];
        for x in 0..size {
            out[x] = self.field.mul(d, self.w[x] as u32) as u16;
        }
        out
    }
}

// The locator of the first 2t terms. After r steps w has the degree l and no discrepancy below r − l; v is w before l grew last, made to have the discrepancy 1.
pub fn locate(field: Arithmetic, s: &[u16; 255], t: usize) -> [u16; 255]
    requires { (t ≤ 127) × Below (size_of (modulus field.field)) s.now }
    ensures { Locates (modulus field.entry.field) t s.now result }
{
    let mut w = [0u16; 255];
    w[0] = 1;
    let mut v = [0u16; 255];
    let mut l: usize = 0;
    for r in 0..t + t {
        let q = r - l;
        let held = Registers {
            field,
            s,
            w: &w,
            v: &v,
        };
        let d = held.discrepancy(q, l + 1);
        if d == Field::ZERO {
            continue;
        }
        if q < l {
            let j = l - (q + 1);
            let u = held.amended(d, 0, j, l + 1);
            w = u;
            continue;
        }
        let i = q + 1 - l;
        let u = held.amended(d, i, 0, q + 2);
        let e = field.inverse(d);
        let z = held.scaled(e, l + 1);
        w = u;
        v = z;
        l = q + 1;
    }
    if l <= t { w } else { v }
}
