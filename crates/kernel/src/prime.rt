// Rows over a prime field whose symbols are bytes: products of bytes in 16 bits, and one division for all lanes. A row is read
// by the index: after `for (sum, x) in acc.iter_mut().zip(row)` a proof knows nothing about acc.
ghost use Rattle.std.specs.Prelude.{◌≡◌, ◌*◌, ◌/◌, ◌%◌, ◌<◌, ◌≤◌, true, length};
ghost use Rattle.lists.specs.Numbers.{all_below};
ghost use Rattle.field.specs.Fields.{add, mul};
ghost use Rattle.kernel.specs.Inner.Lanes.{add_scaled};

// A symbol c of the field of p elements as a factor. ratio stands for c / p.
#[derive(Clone, Copy)]
struct Factor {
    p: u16,
    c: u16,
    ratio: u16,
    ghost byte: { p ≤ 256 },
    ghost symbol: { c < p },
    ghost quotient: { ratio ≡ c * 256 / p },
}

impl Factor {
    // x·c modulo p. x·ratio / 256 is the quotient of x·c by p, or one less.
    fn times(self, x: u8) -> u16
        ensures { result ≡ x * self.c % self.p }
    {
        let a = x as u16;
        reduced(self.p, a * self.c - a * self.ratio / 256 * self.p)
    }

    // One lane: x·c added to the sum.
    fn add_product(self, x: u8, sum: u8) -> u8
        requires { sum < self.p }
        ensures { result ≡ add self.p (mul self.p x self.c) sum }
    {
        reduced(self.p, self.times(x) + sum as u16) as u8
    }
}

pub fn add_scaled(p: u16, c: u16, row: &[u8], acc: &mut [u8])
    requires { (p ≤ 256) × (c < p) × (length row.now ≡ length acc.old) × (all_below p acc.old ≡ true) }
    ensures { acc.new ≡ add_scaled p c row.now acc.old }
{
    if c == 0 {
        return;
    }
    let factor = Factor {
        p,
        c,
        ratio: c * 256 / p,
    };
    for (t, sum) in acc.iter_mut().enumerate() {
        *sum = factor.add_product(row[t], *sum);
    }
}

// x modulo p, for x below 2·p.
pub fn reduced(p: u16, x: u16) -> u16
    requires { x < 2 * p }
    ensures { result ≡ x % p }
{
    if x < p { x } else { x - p }
}
