// The field of 256 elements: bytes as polynomials over two elements modulo 0x11D. Its number is 0.
ghost use Rattle.std.specs.Prelude.{◌≡◌, ⊤, ◌%◌, ◌≤◌, ◌<◌, eqb};
ghost use Rattle.field.specs.Fields.{add, sub, mul, inverse, order_of};
ghost use Rattle.field.specs.Kinds.{gf256};

use crate::kind::FieldKind;
use crate::tables::{Tables, constant_tables};

#[derive(Clone, Copy)]
pub struct Gf256 {}

impl Gf256 {
    // Each type of a field has its own two, which was asked for (docs/CLAIMS.md, "Forms of the code").
    pub const ZERO: u32 = 0;

    pub const ONE: u32 = 1;

    pub fn new() -> Self
        ensures { result ≡ gf256 }
    {
        Self {}
    }

    #[tactic(auto, unfolding(crate::specs::Fields::size_of))]
    pub fn add(self, a: u32, b: u32) -> u32
        requires { (a < 256) × (b < 256) }
        ensures { result ≡ add 0 a b }
    {
        FieldKind::add(self, a, b)
    }

    #[tactic(auto, unfolding(crate::specs::Fields::size_of))]
    pub fn sub(self, a: u32, b: u32) -> u32
        requires { (a < 256) × (b < 256) }
        ensures { result ≡ sub 0 a b }
    {
        FieldKind::sub(self, a, b)
    }

    // With tables of its own, for one product.
    pub fn mul(self, a: u32, b: u32) -> u32
        requires { (a < 256) × (b < 256) }
        ensures { result ≡ mul 0 a b }
    {
        let tables = constant_tables();
        self.mul_with(&tables, a, b)
    }

    #[tactic(auto, unfolding(crate::specs::Fields::size_of))]
    pub fn mul_with(self, tables: &Tables, a: u32, b: u32) -> u32
        requires { (a < 256) × (b < 256) }
        ensures { result ≡ mul 0 a b }
    {
        FieldKind::mul(self, tables, a, b)
    }

    // 0 for 0.
    pub fn inverse(self, a: u32) -> u32
        requires { a < 256 }
        ensures { result ≡ inverse 0 a }
    {
        let tables = constant_tables();
        self.inverse_with(&tables, a)
    }

    #[tactic(auto, using(crate::proofs::Meanings::byte_field), unfolding(crate::specs::Fields::size_of))]
    pub fn inverse_with(self, tables: &Tables, a: u32) -> u32
        requires { a < 256 }
        ensures { result ≡ inverse 0 a }
    {
        FieldKind::inverse(self, tables, a)
    }

    // Whether the order of a is n.
    #[tactic(auto, unfolding(crate::specs::Fields::size_of))]
    pub fn has_order(self, a: u32, n: u32) -> bool
        requires { (a < 256) × (1 ≤ n) × (n ≤ 256) }
        ensures { result ≡ eqb (order_of 0 a) n }
    {
        let tables = constant_tables();
        FieldKind::has_order(self, &tables, a, n)
    }
}

impl FieldKind for Gf256 {
    ghost modulus = { λ _. 0 };

    ghost fits = { λ _. ⊤ };

    #[tactic(auto, unfolding(crate::specs::Fields::add))]
    fn add(self, a: u32, b: u32) -> u32 {
        a ^ b
    }

    // Each byte is its own negative.
    #[tactic(auto, unfolding(crate::specs::Fields::size_of, crate::specs::Fields::add, crate::specs::Fields::sub))]
    fn sub(self, a: u32, b: u32) -> u32 {
        self.add(a, b)
    }

    // The exponents add, modulo 255; 0 times a byte is 0. Two tests: behind `a == 0 || b == 0` what is known of the two is joined, and the proof
    // would take it apart again.
    fn mul(self, tables: &Tables, a: u32, b: u32) -> u32 {
        if a == Self::ZERO {
            return Self::ZERO;
        }
        if b == Self::ZERO {
            return Self::ZERO;
        }
        let e = tables.logarithm(a) as u32 + tables.logarithm(b) as u32;
        tables.power(reduced(e)) as u32
    }

    // The power whose exponent is the negative of a's, modulo 255.
    fn inverse(self, tables: &Tables, a: u32) -> u32 {
        if a == Self::ZERO {
            return Self::ZERO;
        }
        let e = tables.logarithm(a) as u32;
        if e == 0 {
            Self::ONE
        } else {
            tables.power(255 - e) as u32
        }
    }

    // By n − 1 sums of exponents modulo 255: 1 is the power at 0. By products, as for a prime, each step would look up the same logarithm again:
    // the test of the order 255 then took 3.5 times as long (1,540 ns in place of 435), that of 5 2.4 times.
    fn has_order(self, tables: &Tables, a: u32, n: u32) -> bool {
        if a == Self::ZERO {
            return false;
        }
        let step = tables.logarithm(a) as u32;
        let mut s = step;
        for _ in 1..n {
            if s == 0 {
                return false;
            }
            s = reduced(step + s);
        }
        s == 0
    }
}

// e modulo 255, for a sum of two exponents, with no branch: 256 stands for 1.
fn reduced(e: u32) -> u32
    requires { e < 510 }
    ensures { result ≡ e % 255 }
{
    let s = e + 1;
    (s + s / 256) % 256 - 1
}
