// Powers of the root, and the nodes' factors in a check sum.
ghost use Rattle.std.specs.Prelude.{◌≡◌, ◌≤◌};
ghost use Rattle.lists.specs.Padded.{padded};
ghost use Rattle.check_sums.specs.Inner.Powers.{powers_of, factors_of};

use crate::lane::stepped;
use generator::Codec;

// The powers of the root below its order, and zeros after them. The caller lends them to `RootPowers`. Four are held at a time, each the fourth after the last one's: so a product need not wait for the one before it.
// An array with zeros after: it is as long as the code's n says, so no length stands beside it.
pub fn powers(codec: Codec) -> [u16; 255]
    ensures { result ≡ padded 255 (powers_of codec.entry.code.header) }
{
    let h = codec.code.header;
    let field = codec.field;
    let root = h.root;
    let n = h.n as usize;
    let square = field.mul(root, root);
    let fourth = field.mul(square, square);
    let mut out = [0u16; 255];
    let mut x: u32 = 1;
    let mut x1 = root;
    let mut x2 = square;
    let mut x3 = field.mul(root, square);
    for place in &mut out[..n] {
        *place = x as u16;
        let x4 = field.mul(fourth, x);
        x = x1;
        x1 = x2;
        x2 = x3;
        x3 = x4;
    }
    out
}

// The powers of a code's root below its order, with zeros after them.
#[derive(Clone, Copy)]
pub struct RootPowers<'a> {
    pub codec: Codec<'a>,
    pub list: &'a [u16],
    pub ghost are: { list.now ≡ padded 255 (powers_of codec.code.header) },
}

impl RootPowers<'_> {
    // The nodes' factors in check sum e, root^(j·e) with the exponent modulo n, and zeros after them.
    // An array with zeros after: there is one for each node, so no length stands beside it.
    pub fn factors(self, e: usize) -> [u16; 255]
        requires { e ≤ 255 }
        ensures { result ≡ padded 255 (factors_of self.entry.codec.code.header e) }
    {
        let h = self.codec.code.header;
        let powers = self.list;
        let n = h.n as usize;
        let step = e % n;
        let mut out = [0u16; 255];
        let mut i: usize = 0;
        for place in &mut out[..n] {
            *place = powers[i];
            i = stepped(i, step, n);
        }
        out
    }
}
