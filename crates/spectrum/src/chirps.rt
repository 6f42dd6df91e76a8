// Powers of the root whose exponents are T(x) = 0 + 1 + .. + (x − 1).
ghost use Rattle.std.specs.Prelude.{◌≡◌, true, ◌%◌, ◌≤◌, length};
ghost use Rattle.lists.specs.Rows.{from};
ghost use Rattle.lists.specs.Numbers.{all_below};
ghost use Rattle.lists.specs.Padded.{padded};
ghost use Rattle.generator.specs.Records.{size};
ghost use Rattle.spectrum.specs.Inner.Spectrum.{triangle, chirp_at, unchirped};

use crate::Transform;
use check_sums::lane::stepped;
use shifts::negative;

// T(x) modulo n, at each place of the list. `n: u8` would say n ≤ 255, and be cast at both uses, which take it beside places; 2 ≤ n would stay.
pub fn fill_exponents(n: usize, out: &mut [u8])
    requires { (2 ≤ n) × (n ≤ 255) }
    ensures { out.new ≡ from (λ x. triangle x % n) 0 (length out.old) }
{
    let mut sum: usize = 0;
    let mut step: usize = 0;
    for exponent in out.iter_mut() {
        *exponent = sum as u8;
        sum = stepped(sum, step, n);
        step = stepped(step, 1, n);
    }
}

impl Transform<'_, '_> {
    // root^T(x), at each place of the row. By `map` over arrays for the longest code it was a third of Update at n = 15.
    pub fn fill_chirps(self, exponents: &[u8], row: &mut [u16])
        requires { (exponents.now ≡ from (λ x. triangle x % self.powers.codec.code.header.n) 0 (length exponents.now)) × (length row.old ≡ length exponents.now) }
        ensures { row.new ≡ from (chirp_at self.entry.powers.codec.code.header) 0 (length row.old) }
    {
        let powers = self.powers.list;
        for (x, &exponent) in exponents.iter().enumerate() {
            row[x] = powers[exponent as usize];
        }
    }

    // Each symbol over root^T(j), and zeros after them.
    pub fn unchirp(self, exponents: &[u8], symbols: &[u16]) -> [u16; 255]
        requires { (exponents.now ≡ from (λ x. triangle x % self.powers.codec.code.header.n) 0 (length exponents.now)) × (length symbols.now ≤ length exponents.now) × (length symbols.now ≤ 255) × (all_below (size self.powers.codec.code.header) symbols.now ≡ true) }
        ensures { result ≡ padded 255 (unchirped self.entry.powers.codec.code.header symbols.now) }
    {
        let n = self.powers.codec.code.header.n as usize;
        let powers = self.powers.list;
        let mut out = [0u16; 255];
        let field = self.powers.codec.field;
        for (j, (&x, &exponent)) in symbols.iter().zip(exponents).enumerate() {
            let e = negative(n, exponent as usize);
            out[j] = field.mul(x as u32, powers[e] as u32) as u16;
        }
        out
    }
}
