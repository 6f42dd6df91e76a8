// Traces of bytes onto the subfields of 2^b elements. Bytes are u32 here, as the products of `Gf256` take and give them: of u8 each would
// be cast twice.
ghost use Rattle.std.specs.Prelude.{◌≡◌, ◌<◌};
ghost use Rattle.traces.specs.Traces.{squarings, trace_of, element};
ghost use Rattle.repair_tables.specs.Inner.Bits.{bit_count};

use crate::bits::Bits;
use field::{Gf256, Tables};

// a^(2^count).
fn squarings(tables: &Tables, count: u32, a: u32) -> u32
    requires { a < 256 }
    ensures { result ≡ squarings count a }
{
    let field = Gf256::new();
    let mut x = a;
    for _ in 0..count {
        x = field.mul_with(tables, x, x);
    }
    x
}

impl Bits {
    // The trace of a byte.
    pub fn trace(self, tables: &Tables, a: u32) -> u32
        requires { a < 256 }
        ensures { result ≡ trace_of (bit_count self) a }
    {
        let b = self.count();
        let terms = 8 / b;
        let mut sum: u32 = 0;
        let mut x = a;
        for _ in 0..terms {
            sum ^= x;
            x = squarings(tables, b, x);
        }
        sum
    }

    // The element of the subfield whose lowest bits are v.
    pub fn element(self, v: u32) -> u32
        ensures { result ≡ element (bit_count self) v }
    {
        match self {
            Bits::One => v % 2,
            Bits::Two => (v % 2) ^ (214 * (v / 2 % 2)),
            Bits::Four => ((v % 2) ^ (146 * (v / 2 % 2)))
                ^ ((68 * (v / 4 % 2)) ^ (152 * (v / 8 % 2))),
        }
    }
}
