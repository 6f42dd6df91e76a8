// The fields of p elements, p a prime up to 65,521: arithmetic modulo p.
ghost use Rattle.std.specs.Prelude.{◌≡◌, true, ◌≤◌, ◌<◌, eqb};
ghost use Rattle.field.specs.Primes.{is_prime};
ghost use Rattle.field.specs.Fields.{size_of, add, sub, mul, inverse, order_of};
ghost use Rattle.field.specs.Kinds.{prime_of};

use crate::kind::FieldKind;
use crate::tables::Tables;

#[derive(Clone, Copy)]
pub struct PrimeField {
    pub p: u32,
}

impl PrimeField {
    pub const ZERO: u32 = 0;

    pub const ONE: u32 = 1;

    pub fn new(p: u32) -> Self
        ensures { result ≡ prime_of p }
    {
        Self { p }
    }

    // No operation needs tables here: the trait's methods of these names are these.
    pub fn add(self, a: u32, b: u32) -> u32
        requires { (self.p ≤ 65521) × (a < self.p) × (b < self.p) }
        ensures { result ≡ add self.p a b }
    {
        let p = self.p;
        let s = a + b;
        if s < p { s } else { s - p }
    }

    pub fn sub(self, a: u32, b: u32) -> u32
        requires { (self.p ≤ 65521) × (a < self.p) × (b < self.p) }
        ensures { result ≡ sub self.p a b }
    {
        if b <= a { a - b } else { a + (self.p - b) }
    }

    pub fn mul(self, a: u32, b: u32) -> u32
        requires { (self.p ≤ 65521) × (a < self.p) × (b < self.p) }
        ensures { result ≡ mul self.p a b }
    {
        (a * b) % self.p
    }

    // From t·a = x to a smaller x, at most half as large, down to 1: a division gives the next x, and no index is counted; 0 for 0.
    pub fn inverse(self, a: u32) -> u32
        requires { (is_prime self.p ≡ true) × (self.p ≤ 65521) × (a < self.p) }
        ensures { result ≡ inverse self.p a }
    {
        if a == Self::ZERO {
            return Self::ZERO;
        }
        let p = self.p;
        let mut x = a;
        let mut t = Self::ONE;
        while x != Self::ONE {
            let q = p / x;
            let r = p % x;
            if r <= x - r {
                t = self.sub(Self::ZERO, self.mul(q, t));
                x = r;
            } else {
                t = self.mul(q + 1, t);
                x -= r;
            }
        }
        t
    }

    // Whether the order of a is n, by n − 1 products, each times a.
    #[tactic(auto, using(crate::proofs::Orders::searched_start, crate::proofs::Orders::searched_step, crate::proofs::Orders::searched_stop, crate::proofs::Meanings::mul_under))]
    pub fn has_order(self, a: u32, n: u32) -> bool
        requires { (self.p ≤ 65521) × (a < self.p) × (1 ≤ n) × (n ≤ 256) }
        ensures { result ≡ eqb (order_of self.p a) n }
    {
        let mut x = a;
        for _ in 1..n {
            if x == Self::ONE {
                return false;
            }
            x = self.mul(a, x);
        }
        x == Self::ONE
    }
}

impl FieldKind for PrimeField {
    ghost modulus = { λ f. f.p };

    ghost fits = { λ f. (size_of f.p ≡ f.p) × (f.p ≤ 65521) };

    fn add(self, a: u32, b: u32) -> u32 {
        PrimeField::add(self, a, b)
    }

    fn sub(self, a: u32, b: u32) -> u32 {
        PrimeField::sub(self, a, b)
    }

    fn mul(self, _tables: &Tables, a: u32, b: u32) -> u32 {
        PrimeField::mul(self, a, b)
    }

    #[tactic(auto, using(crate::proofs::Meanings::field_prime))]
    fn inverse(self, _tables: &Tables, a: u32) -> u32 {
        PrimeField::inverse(self, a)
    }

    fn has_order(self, _tables: &Tables, a: u32, n: u32) -> bool {
        PrimeField::has_order(self, a, n)
    }
}

// By trial division up to the square root: the quotient tells where it is reached. `p.isqrt()` before the first division would take longer
// than all divisions of a small p.
pub fn is_prime(p: u32) -> bool
    ensures { result ≡ is_prime p }
{
    for d in 2..p {
        if p / d < d {
            return true;
        }
        if p % d == 0 {
            return false;
        }
    }
    2 <= p
}
