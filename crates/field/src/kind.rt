// What a kind of field does with its symbols. The tables serve bytes; a prime needs none. They are lent to each product: a field that held
// them would have a lifetime, and so would each header.
ghost use Rattle.std.specs.Prelude.{◌≡◌, true, ℕ, ◌≤◌, ◌<◌, eqb};
ghost use Rattle.field.specs.Fields.{is_field, size_of, add, sub, mul, power, inverse, order_of};

use crate::Field;
use crate::tables::Tables;

pub trait FieldKind: Copy {
    // The prime, or 0 for the field of 256 elements.
    ghost modulus: { Self → ℕ };

    // Its sums and products fit 32 bits.
    ghost fits: { Self → Type 0 };

    fn add(self, a: u32, b: u32) -> u32
        requires { fits self × (a < size_of (modulus self)) × (b < size_of (modulus self)) }
        ensures { result ≡ add (modulus self) a b };

    fn sub(self, a: u32, b: u32) -> u32
        requires { fits self × (a < size_of (modulus self)) × (b < size_of (modulus self)) }
        ensures { result ≡ sub (modulus self) a b };

    fn mul(self, tables: &Tables, a: u32, b: u32) -> u32
        requires { fits self × (a < size_of (modulus self)) × (b < size_of (modulus self)) }
        ensures { result ≡ mul (modulus self) a b };

    // The symbol whose product with a is 1; 0 for 0.
    fn inverse(self, tables: &Tables, a: u32) -> u32
        requires { fits self × (is_field (modulus self) ≡ true) × (a < size_of (modulus self)) }
        ensures { result ≡ inverse (modulus self) a };

    // Whether the order of a is n: the first exponent whose power of a is 1.
    fn has_order(self, tables: &Tables, a: u32, n: u32) -> bool
        requires { fits self × (a < size_of (modulus self)) × (1 ≤ n) × (n ≤ 256) }
        ensures { result ≡ eqb (order_of (modulus self) a) n };

    // By squaring: the result so far times base^k is the power. The exponent is halved, and no index is counted.
    final fn power(self, tables: &Tables, a: u32, e: u32) -> u32
        requires { fits self × (is_field (modulus self) ≡ true) × (a < size_of (modulus self)) }
        ensures { result ≡ power (modulus self) a e }
    {
        let mut base = a;
        let mut k = e;
        let mut r = Field::ONE;
        while k > 0 {
            if k % 2 == 1 {
                r = self.mul(tables, r, base);
            }
            base = self.mul(tables, base, base);
            k /= 2;
        }
        r
    }
}
