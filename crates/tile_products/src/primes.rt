// A prime field by the width of its symbols: lists and sums of bytes, or of symbols of two bytes, which `row_sums` sums.
ghost use Rattle.std.specs.Prelude.{◌≡◌, ℕ, ◌*◌, ◌≤◌, ◌<◌, true, List, length, MatchBool};
ghost use Rattle.lists.specs.Numbers.{all_below};
ghost use Rattle.field.specs.Primes.{is_prime};
ghost use Rattle.field.specs.Widths.{bytes_for};
ghost use Rattle.tile_products.specs.Inner.Ratios.{InScale};
ghost use Rattle.tile_products.specs.Inner.Products.{groups_of, Codes, Prepared, OutputRows};

use crate::prime::Modulus;
use field::{Field, PrimeField};
use row_sums::wide;

// A field of its own type does not say that it is usable, so a prime and its bound are asked.
#[derive(Clone, Copy)]
pub struct Prime {
    p: u16,
    ghost prime: { is_prime p ≡ true },
    ghost fits: { p ≤ 65521 },
}

impl Prime {
    pub fn new(p: u32) -> Self
        requires prime { is_prime p ≡ true }
        requires fits { p ≤ 65521 }
        ensures { result.p ≡ p }
    {
        Prime { p: p as u16 }
    }

    // Whether a symbol is a byte.
    fn has_bytes(self) -> bool
        ensures { MatchBool result (self.p ≤ 256) (256 < self.p) }
    {
        Field::Prime(PrimeField::new(self.p as u32)).width() == 1
    }

    // What stands for each weight; a weight of two bytes stands for itself.
    pub fn fill_codes(self, codes: &mut [u64; 256])
        ensures { Codes self.p codes.new }
    {
        if self.has_bytes() {
            Modulus::new(self.p).fill_ratios(codes);
        }
    }

    // The list for the weights of an output: the weights, and after weights of bytes their ratios.
    pub fn list_weights(self, codes: &[u64], weights: &[u16], list: &mut [u16])
        requires known { Codes self.p codes.now }
        requires few { length weights.now ≤ 255 }
        requires below { all_below self.p weights.now ≡ true }
        requires long { length list.old ≡ 8 * groups_of (length weights.now) }
        ensures { (counts : List ℕ) → length counts ≡ 8 → Prepared self.p weights.now list.new counts }
    {
        let rows = weights.len();
        list[..rows].copy_from_slice(weights);
        if self.has_bytes() {
            Modulus::new(self.p).scale(codes, weights, &mut list[rows..]);
        }
    }

    // In each lane the sum of the rows' symbols times the list's weights.
    pub fn output(self, rows: usize, list: &[u16], tile: &[u8], out: &mut [u8])
        requires few { rows ≤ 255 }
        requires weights { rows ≤ length list.now }
        requires in_scale { self.p ≤ 256 → InScale self.p rows list.now }
        requires tile_long { length tile.now ≡ groups_of rows * (bytes_for self.p * 256) }
        requires out_long { length out.old ≡ bytes_for self.p * 64 }
        ensures { OutputRows self.p rows list.now tile.now out.new }
    {
        if self.has_bytes() {
            Modulus::new(self.p).output(rows, list, tile, out);
            return;
        }
        let size = rows * 128;
        wide::combine(self.p, &list[..rows], 64, &tile[..size], out);
    }
}
