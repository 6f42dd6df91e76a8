// The code that an accepted record stands for, and its dimensions.
ghost use Rattle.std.specs.Prelude.{◌≡◌, ◌≤◌, ◌<◌, ◌+◌, ◌-◌};
ghost use Rattle.generator.specs.Records.{Sound};

use crate::Header;
use field::Tables;
use field::lent::Arithmetic;

// What the record holds, and that it is sound.
#[derive(Clone, Copy)]
pub struct Code {
    pub header: Header,
    ghost sound: { Sound header },
}

// The length n of a code and its dimension k, which are all that the shifts and the distance depend on.
#[derive(Clone, Copy)]
pub struct Dimensions {
    pub n: u8,
    pub k: u8,
    pub ghost some: { 0 < k },
    pub ghost fits: { k ≤ n },
}

impl Dimensions {
    // d, the number of nodes that a changed symbol writes.
    pub fn distance(self) -> u8
        ensures { result ≡ self.n - self.k + 1 }
    {
        self.n - self.k + 1
    }
}

impl Code {
    // Its length and its dimension.
    pub fn dimensions(self) -> Dimensions
        ensures { (result.n ≡ self.header.n) × (result.k ≡ self.header.k) }
    {
        let Header { n, k, .. } = self.header;
        Dimensions { n, k }
    }

    // How many check sums a word of n symbols has.
    pub fn checks(self) -> usize
        ensures { result ≡ self.header.n - self.header.k }
    {
        let Dimensions { n, k } = self.dimensions();
        (n - k) as usize
    }
}

// A code and the arithmetic of its field, with the tables that were lent for products: what reckons over a code takes it.
#[derive(Clone, Copy)]
pub struct Codec<'a> {
    pub code: Code,
    pub field: Arithmetic<'a>,
    pub ghost same: { field.field ≡ code.header.field },
}

impl<'a> Codec<'a> {
    pub fn new(code: Code, tables: &'a Tables) -> Self
        ensures { result.code ≡ code }
    {
        Self {
            code,
            field: Arithmetic::new(code.header.field, tables),
        }
    }
}
