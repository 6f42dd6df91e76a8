// The base word, row 0 of the generator. Its entry j is p(root^(j + k − 1)), where p(x) is the product of (x − root^i) for i from 0 to k − 2.
ghost use Rattle.std.specs.Prelude.{◌≡◌, ◌+◌, ◌-◌, ◌<◌};
ghost use Rattle.lists.specs.Padded.{padded};
ghost use Rattle.field.specs.Fields.{mul, power};
ghost use Rattle.generator.specs.Records.{modulus_of, size};
ghost use Rattle.generator.specs.Generator.{base_at, entry_at, base_word};

use field::Field;
use generator::Codec;

// What leads from one entry to the next: p(root·x)·(x − pole) = p(x)·(scale·x − pole), where scale is root^(k−1) and pole is root^(k−2).
#[derive(Clone, Copy)]
struct Recurrence<'a> {
    codec: Codec<'a>,
    scale: u32,
    pole: u32,
    ghost scale_is: { scale ≡ power (modulus_of codec.code.header) codec.code.header.root (codec.code.header.k - 1) },
    ghost pole_is: { pole ≡ power (modulus_of codec.code.header) codec.code.header.root (codec.code.header.n + codec.code.header.k - 2) },
}

impl Recurrence<'_> {
    // Entry 0, which is p(scale), factor by factor; y is root^i.
    fn first(self) -> u32
        ensures { result ≡ entry_at self.entry.codec.code.header 0 0 }
    {
        let Recurrence { codec, scale, .. } = self;
        let Codec { code, field, .. } = codec;
        let root = code.header.root;
        let mut product = Field::ONE;
        let mut y = Field::ONE;
        for _ in 0..code.header.k - 1 {
            product = field.mul(field.sub(scale, y), product);
            y = field.mul(root, y);
        }
        product
    }

    // p(root·x) from p(x), which is `entry`.
    fn next(self, x: u32, entry: u32) -> u32
        requires { (x < size self.codec.code.header) × (x ≡ self.pole → ⊥) × (entry ≡ base_at self.codec.code.header x) }
        ensures { result ≡ base_at self.entry.codec.code.header (mul (modulus_of self.entry.codec.code.header) self.entry.codec.code.header.root x) }
    {
        let field = self.codec.field;
        let above = field.sub(field.mul(self.scale, x), self.pole);
        let below = field.sub(x, self.pole);
        let ratio = field.mul(above, field.inverse(below));
        field.mul(entry, ratio)
    }

    // The n − k + 1 entries that are not 0, each from the one before it, and zeros after them.
    fn word(self) -> [u16; 255]
        ensures { result ≡ padded 255 (base_word self.entry.codec.code.header) }
    {
        let codec = self.codec;
        let code = codec.code;
        let last = code.checks();
        let mut out = [0u16; 255];
        let mut x = self.scale;
        let mut entry = self.first();
        out[0] = entry as u16;
        for place in &mut out[1..=last] {
            entry = self.next(x, entry);
            x = codec.field.mul(code.header.root, x);
            *place = entry as u16;
        }
        out
    }
}

// The base word of a code, and zeros after it.
// An array with zeros after: so a plan hands it to C, and the code tells how much of it counts.
pub fn base_word(codec: Codec) -> [u16; 255]
    ensures { result ≡ padded 255 (base_word codec.entry.code.header) }
{
    let h = codec.code.header;
    let n = h.n as u32;
    let k = h.k as u32;
    let scale = codec.field.power(h.root, k - 1);
    let pole = codec.field.power(h.root, n + k - 2);
    Recurrence { codec, scale, pole }.word()
}
