// Sums of rows times weights over a prime field whose symbols are bytes, for tiles of 64 lanes. A product fits 16 binary digits. Two sums
// of 16 digits are made of the products, modulo 65536 and of the upper bytes alone, and each sum is reduced once.
ghost use Rattle.std.specs.Prelude.{◌≡◌, ◌*◌, ◌/◌, ◌%◌, ◌≤◌, ◌<◌, ℕ, true, length, slice_index};
ghost use Rattle.lists.specs.Numbers.{all_below};
ghost use Rattle.lists.specs.Rows.{from};
ghost use Rattle.layout.specs.Layout.{row_after_row};
ghost use Rattle.kernel.specs.Inner.Halves.{wrapped, total_of};
ghost use Rattle.row_sums.specs.Inner.Combined.{combined};
ghost use Rattle.tile_products.specs.Inner.Ratios.{ratio_of, Ratios, InScale};

use kernel::wide::{self, Sums};

// What sums are reduced by: p, and the quotient of 65536 by it.
#[derive(Clone, Copy)]
pub struct Modulus {
    p: u16,
    inverse: u16,
    ghost some: { 2 ≤ p },
    ghost fits: { p ≤ 256 },
    ghost quotient: { inverse ≡ 65536 / p },
}

impl Modulus {
    pub fn new(p: u16) -> Self
        requires some { 2 ≤ p }
        requires fits { p ≤ 256 }
        ensures { result.p ≡ p }
    {
        Modulus {
            p,
            inverse: (65536 / p as u32) as u16,
        }
    }

    // x modulo p.
    fn rest(self, x: u16) -> u8
        ensures { result ≡ x % self.p }
    {
        kernel::prime::reduced(self.p, x - wide::upper(x, self.inverse) * self.p) as u8
    }

    // The sum of at most 255 products, from its sum modulo 65536 and the sum of their upper bytes, modulo p.
    fn total(self, low: u16, up: u16) -> u8
        ensures { result ≡ total_of low up % self.p }
    {
        let lower = low.wrapping_sub(up % 256 * 256);
        let upper = self.rest(up) as u16 * (256 % self.p);
        let sum = upper + self.rest(lower) as u16;
        self.rest(sum)
    }

    // The sums modulo p. By the index: where a loop over `out.iter_mut().enumerate()` stores them, an output of 125 rows takes a sixth more time.
    fn store(self, sums: &Sums<64>, out: &mut [u8])
        requires { length out.old ≡ 64 }
        ensures { out.new ≡ from (λ t. total_of (slice_index sums.now.rest t) (slice_index sums.now.upper t) % self.p) 0 64 }
    {
        for t in 0..64 {
            out[t] = self.total(sums.rest[t], sums.upper[t]);
        }
    }

    // The ratios of all weights. By the index: `codes[..p].iter_mut().enumerate()` takes a tenth more time.
    pub fn fill_ratios(self, codes: &mut [u64; 256])
        ensures { Ratios self.p codes.new }
    {
        let p = self.p;
        for c in 0..p as usize {
            codes[c] = (c as u32 * 65536 / p as u32) as u64;
        }
    }

    // The ratios of an output's weights.
    pub fn scale(self, codes: &[u64], weights: &[u16], out: &mut [u16])
        requires known { Ratios self.p codes.now }
        requires below { all_below self.p weights.now ≡ true }
        requires room { length weights.now ≤ length out.old }
        ensures { (i : ℕ) → i < length weights.now → slice_index out.new i ≡ ratio_of self.p (slice_index weights.now i) }
    {
        for (i, w) in weights.iter().enumerate() {
            out[i] = codes[*w as usize] as u16;
        }
    }

    // In each lane the sum of the rows' symbols times the weights. By index: with `list[..rows].iter().zip(tile.chunks(64))`
    // Encode over the prime 251 took 12 % longer.
    pub fn output(self, rows: usize, list: &[u16], tile: &[u8], out: &mut [u8])
        requires in_scale { InScale self.p rows list.now }
        requires tile_long { rows * 64 ≤ length tile.now }
        requires out_long { length out.old ≡ 64 }
        ensures { out.new ≡ combined row_after_row self.p rows 64 list.now tile.now }
    {
        let mut sums: Sums<64> = Sums::none();
        for i in 0..rows {
            let c = list[i];
            // A weight of 0 costs nothing.
            if c != 0 {
                let start = i * 64;
                let end = start + 64;
                add_product(c, &tile[start..end], &mut sums);
            }
        }
        self.store(&sums, out);
    }
}

// A row times c added: a product fits 16 binary digits. By the index: with `row.iter().enumerate()` and AVX2 an output takes a sixth more time.
fn add_product(c: u16, row: &[u8], sums: &mut Sums<64>)
    requires small { c ≤ 256 }
    requires long { length row.now ≡ 64 }
    ensures rest { sums.new.rest ≡ wrapped (λ t. slice_index row.now t * c) sums.old.rest }
    ensures upper { sums.new.upper ≡ wrapped (λ t. slice_index row.now t * c / 256) sums.old.upper }
{
    for t in 0..64 {
        sums.add(t, row[t] as u16 * c);
    }
}
