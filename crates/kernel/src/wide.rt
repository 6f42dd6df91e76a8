// Symbols of two bytes times weights of two bytes, 16 lanes at a time: a row of high bytes and a row of low bytes. The products are
// summed by halves of 16 binary digits, each in two sums of 16 digits: modulo 65536, and of the upper bytes alone.
ghost use Rattle.std.specs.Prelude.{◌≡◌, ◌+◌, ◌*◌, ◌/◌, ◌%◌, ◌<◌, length, slice_index, slice_set};
ghost use Rattle.lists.specs.Padded.{zeros};
ghost use Rattle.lists.specs.Rows.{from};
ghost use Rattle.kernel.specs.Inner.Halves.{pair_product, wrapped, DigitSums, total_of, rest_of};

use std::array;

pub fn product(weight: u16, first: u8, second: u8) -> u32
    ensures { (result ≡ (first * 256 + second) * weight) × (result < 4294967296) }
{
    u16::from_be_bytes([first, second]) as u32 * weight as u32
}

// The upper 16 binary digits of a product.
pub fn upper(x: u16, weight: u16) -> u16
    ensures { result ≡ x * weight / 65536 }
{
    (x as u32 * weight as u32 / 65536) as u16
}

// Sums of numbers of 16 binary digits, one in each of N lanes, held twice: modulo 65536, and the sums of the upper bytes alone. Both
// together tell the sums of up to 257 numbers.
#[derive(Clone, Copy)]
pub struct Sums<const N: usize> {
    pub rest: [u16; N],
    pub upper: [u16; N],
    pub ghost rest_lanes: { DigitSums N rest },
    pub ghost upper_lanes: { DigitSums N upper },
}

impl<const N: usize> Sums<N> {
    // The sums of no numbers.
    pub fn none() -> Self
        ensures { (result.rest ≡ zeros N) × (result.upper ≡ zeros N) }
    {
        Sums {
            rest: [0; N],
            upper: [0; N],
        }
    }

    // Adds x to lane t.
    pub fn add(&mut self, t: usize, x: u16)
        requires { t < N }
        ensures rest { self.new.rest ≡ slice_set self.old.rest t ((slice_index self.old.rest t + x) % 65536) }
        ensures upper { self.new.upper ≡ slice_set self.old.upper t ((slice_index self.old.upper t + x / 256) % 65536) }
    {
        self.rest[t] = self.rest[t].wrapping_add(x);
        self.upper[t] = self.upper[t].wrapping_add(x / 256);
    }

    // The sum in lane t.
    fn total(&self, t: usize) -> u64
        requires { t < N }
        ensures value { result ≡ total_of (slice_index self.now.rest t) (slice_index self.now.upper t) }
        ensures bound { result < 16842752 }
    {
        let upper = self.upper[t];
        upper as u64 * 256 + self.rest[t].wrapping_sub(upper % 256 * 256) as u64
    }
}

// Sums of products of numbers of 16 binary digits: of their lower halves and of their upper ones.
#[derive(Clone, Copy)]
pub struct Halves {
    pub low: Sums<16>,
    pub high: Sums<16>,
}

impl Halves {
    // The sums of no products.
    pub fn none() -> Self
        ensures low { (result.low.rest ≡ zeros 16) × (result.low.upper ≡ zeros 16) }
        ensures high { (result.high.rest ≡ zeros 16) × (result.high.upper ≡ zeros 16) }
    {
        Halves {
            low: Sums::none(),
            high: Sums::none(),
        }
    }

    // Adds each symbol of a row times the weight. A weight of 0 costs nothing.
    pub fn add_products(&mut self, weight: u16, first: &[u8], second: &[u8])
        requires { (length first.now ≡ 16) × (length second.now ≡ 16) }
        ensures low_rest { self.new.low.rest ≡ wrapped (λ t. pair_product weight first.now second.now t % 65536) self.old.low.rest }
        ensures low_upper { self.new.low.upper ≡ wrapped (λ t. pair_product weight first.now second.now t % 65536 / 256) self.old.low.upper }
        ensures high_rest { self.new.high.rest ≡ wrapped (λ t. pair_product weight first.now second.now t / 65536) self.old.high.rest }
        ensures high_upper { self.new.high.upper ≡ wrapped (λ t. pair_product weight first.now second.now t / 65536 / 256) self.old.high.upper }
    {
        if weight == 0 {
            return;
        }
        for t in 0..16 {
            let x = u16::from_be_bytes([first[t], second[t]]);
            self.low.add(t, x.wrapping_mul(weight));
            self.high.add(t, upper(x, weight));
        }
    }

    // The sum of lane t modulo p.
    fn remainder(&self, p: u16, t: usize) -> u16
        requires { (0 < p) × (t < 16) }
        ensures { result ≡ rest_of p (slice_index self.now.low.rest t) (slice_index self.now.low.upper t) (slice_index self.now.high.rest t) (slice_index self.now.high.upper t) }
    {
        ((self.high.total(t) * 65536 + self.low.total(t)) % p as u64) as u16
    }

    // The sums modulo p.
    pub fn remainders(&self, p: u16) -> [u16; 16]
        requires { 0 < p }
        ensures { result ≡ from (λ t. rest_of p (slice_index self.now.low.rest t) (slice_index self.now.low.upper t) (slice_index self.now.high.rest t) (slice_index self.now.high.upper t)) 0 16 }
    {
        array::from_fn(|t| self.remainder(p, t))
    }
}
